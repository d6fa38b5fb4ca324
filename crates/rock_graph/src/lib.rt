// The rocks that are left, as one struct that a run lends to all its steps, and tests at one of them.
#![tactic(auto)]

mod lent;
mod maps;

pub use lent::Graph;
