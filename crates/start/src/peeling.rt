// Peeling: jobs that hang off a cycle.
ghost use Rattle.std.specs.Prelude.{◌≡◌, map};
ghost use Rattle.day.specs.Day.{Day};
ghost use Rattle.algorithm.specs.Start.{State, peel as peel_of};
ghost use Rattle.start.specs.StartArrays.{left_rock, left_count, hanging_of, JobsOf, Placed};
ghost use Rattle.rocks.specs.RockArrays.{first};
ghost use Rattle.rocks.specs.DayArrays.{DayRocks, Cycles};

use rocks::{Balance, Limits, Standing};

// left_at d left v j, of the rock r with job j.
fn left_at(job: &[usize], low: &[usize], high: &[usize], left: &[bool], r: usize, v: usize) -> bool
    ensures { result ≡ left_rock job.now low.now high.now left.now v r }
{
    rocks::touches(low, high, r, v) && arrays::at(left, arrays::at(job, r))
}

// count jobs (left_at d left v).
fn count_left(
    n: Limits,
    job: &[usize],
    low: &[usize],
    high: &[usize],
    left: &[bool],
    v: usize,
) -> usize
    ensures { result
        ≡ left_count n.rocks job.now low.now high.now left.now v }
{
    let mut k = 0;
    for r in 0..n.rocks {
        if left_at(job, low, high, left, r, v) {
            k += 1;
        }
    }
    k
}

// hanging d left v.
fn hanging_at<S: Standing>(
    n: Limits,
    job: &[usize],
    low: &[usize],
    high: &[usize],
    balance: &[S],
    left: &[bool],
    v: usize,
) -> bool
    ensures { result
        ≡ hanging_of n.rocks job.now low.now high.now (map S.balance balance.now)
        left.now v }
{
    arrays::at(balance, v).balance() == Balance::OneCycle
        && count_left(n, job, low, high, left, v) == 1
}

// The first bench that hangs off a cycle, if there is one.
fn first_hanging<S: Standing>(
    n: Limits,
    job: &[usize],
    low: &[usize],
    high: &[usize],
    balance: &[S],
    left: &[bool],
) -> Option<usize>
    ensures { result ≡ first n.benches
        (hanging_of n.rocks job.now low.now high.now (map S.balance balance.now) left.now) }
{
    (0..n.benches).find(|&v| hanging_at(n, job, low, high, balance, left, v))
}

// The first rock that is left at v, if there is one.
fn hanging_rock(
    n: Limits,
    job: &[usize],
    low: &[usize],
    high: &[usize],
    left: &[bool],
    v: usize,
) -> Option<usize>
    ensures { result ≡ first n.rocks (left_rock job.now low.now high.now left.now v) }
{
    (0..n.rocks).find(|&r| left_at(job, low, high, left, r, v))
}

// peel jobs d (left, place).
pub fn peel<S: Standing>(
    n: Limits,
    job: &[usize],
    low: &[usize],
    high: &[usize],
    balance: &[S],
    left: &mut [bool],
    place: &mut [usize],
)
    ensures { (d : Day) → (s : State) → DayRocks d n low.now high.now
        → JobsOf d job.now → Cycles d (map S.balance balance.now)
        → Placed d s left.old place.old
        → Placed d (peel_of d.jobs d s) left.new place.new }
{
    for _ in 0..n.jobs {
        let Some(v) = first_hanging(n, job, low, high, balance, left) else {
            return;
        };
        let Some(r) = hanging_rock(n, job, low, high, left, v) else {
            return;
        };
        let j = arrays::at(job, r);
        arrays::put(left, j, false);
        arrays::put(place, j, v);
    }
}
