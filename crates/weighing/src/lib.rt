// What weighs inside a set of benches, and whether that is more than the set can take.
#![tactic(auto)]

mod weighing;

pub use weighing::blocks;
