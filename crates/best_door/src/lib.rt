// The best target for C: the call behind the door (best_promise has what is promised of it).
#![tactic(auto)]

mod call;

pub use call::best;
