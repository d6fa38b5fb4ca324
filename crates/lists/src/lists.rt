// A list of places: entry j is job j's bench.
ghost use Rattle.std.specs.Prelude.{◌≡◌, ◌≤◌};
ghost use Rattle.sums.specs.Search.{all};
ghost use Rattle.loads.specs.BenchSum.{sum_of};
ghost use Rattle.lists.specs.Lists.{fits_at, Summed};

use loads::BenchSum;

// Whether job j's bench in the list is one of its set.
fn fit(allowed: &[u64], list: &[u64], j: usize) -> bool
    ensures { result ≡ fits_at allowed.now list.now j }
{
    let set = arrays::at(allowed, j) as usize;
    let v = arrays::at(list, j) as usize;
    sets::has(set, v)
}

// Whether each job's bench in the list is one of its set.
pub fn fit_all(jobs: usize, allowed: &[u64], list: &[u64]) -> bool
    ensures { result ≡ all jobs (fits_at allowed.now list.now) }
{
    (0..jobs).all(|j| fit(allowed, list, j))
}

// Adds to entry v of `load` the minutes of the jobs that the list puts on bench v; then the largest entry of the
// benches, and the first bench that has it.
pub fn sum_list(
    jobs: usize,
    benches: usize,
    minutes: &[u64],
    list: &[u64],
    load: &mut [usize],
) -> BenchSum
    ensures loads { jobs ≤ 512
        → Summed jobs minutes.now list.now load.old load.new }
    ensures fullest { result ≡ sum_of benches load.new }
{
    let mut amount = [0usize; 512];
    let mut place = [0usize; 512];
    arrays::to_numbers(jobs, minutes, &mut amount);
    arrays::to_numbers(jobs, list, &mut place);
    loads::sum_benches(jobs, benches, &amount, &place, load)
}
