// What the C door takes and returns: tables of numbers, and result words.
#![tactic(auto)]

mod front;
mod table;
mod words;

pub use front::{put_front, put_three, room};
pub use table::put;
pub use words::{BEST, DIFFERENT, LONG, NONE, NOT_PASSED, NOTHING, PASSED, PLAN, SAME, fault_word};
