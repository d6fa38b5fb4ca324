// The C door's tables of numbers, as they are read (tables' specs/Tables says what a table holds).
#![tactic(auto)]

mod table;

pub use table::{entries, first_from, load, load_given};
