// The tests of faults 7 to 12, 14 and 15, for the reader and the writer alike.
#![tactic(auto)]

mod hyper_edges;
mod tests;

pub use hyper_edges::{allowed_at, check_hyper_edges, minutes_at};
pub use tests::{check_booking, check_head, check_job};
