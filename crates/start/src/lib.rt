// The start of the run: kinds of jobs, limits, the rocks of a day, and peeling.
#![tactic(auto)]

mod peeling;
mod start;

pub use peeling::peel;
pub use start::{
    choose, gather, heavy, limits, long_job, mark_pebbles, mark_rocks, place_lowest, weigh,
};
