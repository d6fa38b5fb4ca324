// The bench sum: what lies on each bench, the largest load, and the fullest bench.
ghost use Rattle.std.specs.Prelude.{◌≡◌};
ghost use Rattle.loads.specs.Loads.{bench_loads};
ghost use Rattle.loads.specs.BenchSum.{fuller, sum_of};

use crate::own;

// The largest load, and the lowest bench that has it.
#[derive(Drop)]
pub struct BenchSum {
    pub largest: usize,
    pub fullest: usize,
}

// The same with one bench more, of this load.
fn with_bench(sum: BenchSum, bench: usize, load: usize) -> BenchSum
    ensures { result ≡ fuller sum bench load }
{
    if sum.largest < load {
        return BenchSum {
            largest: load,
            fullest: bench,
        };
    }
    sum
}

// The largest of the first loads, and the first bench that has it.
pub fn fullest(benches: usize, load: &[usize]) -> BenchSum
    ensures { result ≡ sum_of benches load.now }
{
    let mut sum = BenchSum {
        largest: 0,
        fullest: 0,
    };
    for v in 0..benches {
        sum = with_bench(sum, v, arrays::at(load, v));
    }
    sum
}

// Adds to entry v of `load` the minutes of the jobs on bench v; then the largest entry of the benches, and the first
// bench that has it.
pub fn sum_benches(
    jobs: usize,
    benches: usize,
    minutes: &[usize],
    place: &[usize],
    load: &mut [usize],
) -> BenchSum
    ensures loads { load.new
        ≡ bench_loads jobs minutes.now place.now load.old }
    ensures fullest { result ≡ sum_of benches load.new }
{
    let nothing = [false; 512];
    own::own_loads(jobs, minutes, &nothing, place, load);
    fullest(benches, load)
}
