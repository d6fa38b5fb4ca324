// The rocks as arrays: tests at a rock, components and their balances.
#![tactic(auto)]

mod balancing;
mod components;
mod rocks;
mod spreading;

pub use balancing::{Balance, Standing};
pub use components::{balances, component, crowded_bench};
pub use rocks::{Limits, other, touches, within};
pub use spreading::{first_inside, set_balance, spread};
