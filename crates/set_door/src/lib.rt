// The check of a set of benches for C: the call behind the door (set_promise has what is promised of it).
#![tactic(auto)]

mod call;

pub use call::check_set;
