// The check of a page of sets for C: the call behind the door (page_promise has what is promised of it).
#![tactic(auto)]

mod call;

pub use call::check_page;
