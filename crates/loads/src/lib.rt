// Loads of benches: the amounts of jobs summed bench by bench, the largest of the loads, and the fullest bench.
#![tactic(auto)]

mod bench_sum;
mod own;

pub use bench_sum::{BenchSum, fullest, sum_benches};
pub use own::own_loads;
