// The target at which the search starts.
ghost use Rattle.std.specs.Prelude.{◌≡◌};
ghost use Rattle.searching.specs.Searching.{total_of, start_of};

// The first n entries together, and the greatest number where that does not fit.
fn total(n: usize, t: &[usize]) -> usize
    ensures { result ≡ total_of n t.now }
{
    let mut sum = 0usize;
    for i in 0..n {
        sum = sum.saturating_add(arrays::at(t, i));
    }
    sum
}

// The minutes of all jobs, and the longest booking.
pub fn start_target(jobs: usize, benches: usize, minutes: &[usize], booked: &[usize]) -> usize
    ensures { result ≡ start_of jobs benches minutes.now booked.now }
{
    let all = total(jobs, minutes);
    let most = loads::fullest(benches, booked);
    all.saturating_add(most.largest)
}
