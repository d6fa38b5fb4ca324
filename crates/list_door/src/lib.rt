// The check of a list of places for C: the call behind the door (list_promise has what is promised of it).
#![tactic(auto)]

mod call;

pub use call::{check_plan, short_fault};
