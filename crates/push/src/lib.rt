// PUSH on arrays (Definition 4.4.3), and what a move changes.
#![tactic(auto)]

mod kept;
mod push;

pub use kept::shift;
pub use push::{Move, fill_receivers, first_push};
