// The check of a set of benches that somebody else says is blocking.
#![tactic(auto)]

mod check;

pub use check::{check_set, foreign};
