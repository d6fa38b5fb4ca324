// The comparison of two plans of a sheet.
#![tactic(auto)]

mod compared;
mod comparison;

pub use compared::Compared;
pub use comparison::compare;
