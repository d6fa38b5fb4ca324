// EXPLORE2 on arrays (figure 4.6): the tables before its first round, and its rounds.
#![tactic(auto)]

mod blank;
mod rounds;

pub use blank::clear;
pub use rounds::{explore, fill_reach};
