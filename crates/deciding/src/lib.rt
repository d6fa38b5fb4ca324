// What a day comes to: a plan, a long job, or a set of benches that blocks. Nothing is written.
#![tactic(auto)]

mod deciding;

pub use deciding::decide;
pub use decisions::{Decided, Decision, PlanMoves};
