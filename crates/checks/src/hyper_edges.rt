// The test of fault 12, for the reader and the writer alike.
ghost use Rattle.std.specs.Prelude.{◌≡◌, get_or};
ghost use Rattle.sums.specs.Sum.{largest};
ghost use Rattle.fields.specs.Tests.{no_minutes, job_table};
ghost use Rattle.checks.specs.HyperEdgeCheck.{hyper_edges_checked};

use fields::{Fault, Head, Job};

// Entry n of a table of minutes. Past its end none are given.
pub fn minutes_at(t: &[u64], n: usize) -> u64
    ensures { result ≡ get_or t.now n no_minutes }
{
    entry_or(t, n, Job::NO_MINUTES)
}

// Entry n of a table of benches allowed. Past its end no bench is.
pub fn allowed_at(t: &[u64], n: usize) -> u64
    ensures { result ≡ get_or t.now n 0 }
{
    entry_or(t, n, 0)
}

fn entry_or(t: &[u64], n: usize, missing: u64) -> u64
    ensures { result ≡ get_or t.now n missing }
{
    if n < t.len() { t[n] } else { missing }
}

// The greatest of the first count entries.
fn longest(count: usize, minutes: &[u64]) -> u64
    ensures { result ≡ largest count (λ n. get_or minutes.now n no_minutes) }
{
    let mut w = 0;
    for n in 0..count {
        w = w.max(minutes_at(minutes, n));
    }
    w
}

// Fault 12, for the first count jobs of two tables, if no number is too wide for its field (that is fault 8 or 10).
pub fn check_hyper_edges(
    h: Head,
    count: usize,
    minutes: &[u64],
    allowed: &[u64],
) -> Result<(), Fault>
    ensures { result ≡ hyper_edges_checked h (job_table count minutes.now allowed.now) }
{
    let w = longest(count, minutes);
    if 128 <= h.p {
        return Ok(());
    }
    if 128 <= h.q {
        return Ok(());
    }
    if 1048576 <= w {
        return Ok(());
    }
    for n in 0..count {
        if h.p * w < h.q * minutes_at(minutes, n) {
            if 3 <= allowed_at(allowed, n).count_ones() {
                return Err(Fault::HeavyHyperEdge(n));
            }
        }
    }
    Ok(())
}
