// The check of a page of sets of benches, each of which somebody else says is blocking.
#![tactic(auto)]

mod check;

pub use check::check_page;
