// One frame of a sheet: its faults, or what it holds.
#![tactic(auto)]

mod judge;

pub use judge::{Frame, Stage, frame_at, frame_size};
