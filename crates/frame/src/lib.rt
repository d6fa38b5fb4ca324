// Whole sheets: what is read and what is written, and the laws of both. The types that stand for it; no function.
#![tactic(auto)]

pub use fields::{Booking, Fault, Head, Job, Sheet};
pub use unpacking::{FrameHeader, byte};
