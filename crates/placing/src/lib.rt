// The least weight of a placement inside a set of benches, on arrays: the heavy jobs are taken one by one, and the
// benches are kept in classes (crate `placements` has the procedure as definitions).
#![tactic(auto)]

mod classes;
mod jobs;

pub use classes::Bay;
pub use jobs::least_heavy;
