// Comparing two plans for C: the call behind the door (door's specs/PlanDoor says what it gives).
#![tactic(auto)]

mod call;

pub use call::compare;
