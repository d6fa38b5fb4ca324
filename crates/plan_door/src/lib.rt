// Planning for C: the call behind the door (door's specs/PlanDoor and DoorClaim say what is promised of it).
#![tactic(auto)]

mod call;

pub use call::plan;
