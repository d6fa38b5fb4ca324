// Algorithm 2 on arrays: the turns of the run, from its first state to its last (run's specs/Held says which that is).
#![tactic(auto)]

mod loops;

pub use loops::turns;
