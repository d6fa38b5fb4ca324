// Planning: the planner for a sheet decides its day, then writes the tables of a plan.
#![tactic(auto)]

mod planner;
mod write;

pub use planner::plan;
pub use write::write_plan;
