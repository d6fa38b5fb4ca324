// The search for the best target of a day: a target with its plan, while the one below is refused. Nothing is written.
#![tactic(auto)]

mod first_target;
mod kept;
mod searching;

pub use kept::Found;
pub use searching::search;
