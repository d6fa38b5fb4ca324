// The planner, with the demand as its promise (blocking's specs/Claim).
#![tactic(auto)]

mod planner;

pub use planner::plan;
