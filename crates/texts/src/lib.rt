// The text of an answer, into a buffer (lines' specs/ say which text).
#![tactic(auto)]

mod answer;
mod best;

pub use answer::text;
pub use best::best_text;
