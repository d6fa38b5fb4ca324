// Arrays read and written at any index, and numbers that stop at the greatest. None of these asks anything of its
// caller.
#![tactic(auto)]

mod arrays;
mod entry;
mod numbers;

pub use arrays::{at, count, fill, from_numbers, put, to_numbers, where_marked};
pub use entry::{Entry, Number};
pub use numbers::{exceeds, lower, times};
