// Lists of places: whether each job is on a bench of its set, and what the list puts on each bench.
#![tactic(auto)]

mod lists;

pub use lists::{fit_all, sum_list};
