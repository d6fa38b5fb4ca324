// What a sheet is made of: its head, its bookings, its jobs, and its faults with number and place.
#![tactic(auto)]

mod fault;
mod sheet;

pub use fault::Fault;
pub use sheet::{Booking, Head, Job, Sheet};
