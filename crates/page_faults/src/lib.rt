// The faults of a page of sets, 17 and 18, tried in page order.
#![tactic(auto)]

mod faults;

pub use faults::page_verdict;
