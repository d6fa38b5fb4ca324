// A table of bookings, entry b for bench b: its fault 14, how many of its bookings are above 0, and their frames.
#![tactic(auto)]

mod table;

pub use table::{check_bookings, count_bookings, put_bookings};
