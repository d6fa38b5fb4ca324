// The check of a list of places that somebody else made for a sheet.
#![tactic(auto)]

mod check;

pub use check::check_list;
