// Fields out of bytes: frame headers, and what the bodies of heads, bookings and jobs hold.
#![tactic(auto)]

mod bytes;
mod header;

pub use bytes::byte;
pub use header::{
    FrameHeader, booking_spare, head_spare, job_spare, read_booking, read_head, read_job,
};
