// What is decided of a day, and the run of a day with its decision.
#![tactic(auto)]

mod decision;
mod running;

pub use decision::{Decided, Decision, PlanMoves};
pub use running::{decide_run, without_places};
