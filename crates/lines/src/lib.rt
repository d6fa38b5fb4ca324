// Bytes, numbers and lines into a buffer.
#![tactic(auto)]

mod buffer;
mod decimal;
mod line;

pub use buffer::bytes;
pub use line::{benches, end_line, jobs, pair, triple, word};
