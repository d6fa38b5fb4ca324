// Fields into bytes: the frames of a head, of a booking, of a job and of the end, put into an output.
#![tactic(auto)]

mod put;

pub use put::{put_booking, put_end, put_head, put_job};
