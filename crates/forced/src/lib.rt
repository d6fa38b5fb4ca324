// FORCED ORIENTATIONS on arrays (figure 4.5).
#![tactic(auto)]

mod forced;

pub use forced::{Changed, force};
