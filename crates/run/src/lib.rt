// Algorithm 2 on arrays: the state of the run, and the tables of its answer.
#![tactic(auto)]

mod state;
mod tables;

pub use state::State;
pub use tables::{pick, place_rocks};
