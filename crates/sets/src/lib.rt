// Sets of numbers below 64, benches or rocks, each as one number of 64 bits.
#![tactic(auto)]

mod set_loops;
mod sets;

pub use set_loops::{add, everywhere, reach_of, some};
pub use sets::{above, after, choices, common, either, has, highest, less, lowest, with};
