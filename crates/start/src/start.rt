// The start of the run: kinds of jobs, limits, and the tables that the run reads.
ghost use Rattle.std.specs.Prelude.{◌≡◌, ℕ, ◌<◌, cond, false, get_or, ltb};
ghost use Rattle.arrays.specs.Arrays.{times_of, filled};
ghost use Rattle.sums.specs.Sum.{count};
ghost use Rattle.sums.specs.Members.{members};
ghost use Rattle.sets.specs.Sets.{lowest_of, highest_of};
ghost use Rattle.rocks.specs.RockArrays.{first};
ghost use Rattle.start.specs.StartArrays.{heavy_of, rock_of, pebble_of, limits_of};

use arrays::Entry;
use rocks::Limits;

// heavy d j.
pub fn heavy(p: usize, q: usize, target: usize, minutes: usize) -> bool
    ensures { result ≡ heavy_of p q target minutes }
{
    arrays::times(p, target) < arrays::times(q, minutes)
}

// rock d j.
fn is_rock(p: usize, q: usize, target: usize, minutes: usize, allowed: usize) -> bool
    ensures { result ≡ rock_of p q target minutes allowed }
{
    heavy(p, q, target, minutes) && sets::choices(allowed) == 2
}

// pebble d j.
fn is_pebble(p: usize, q: usize, target: usize, minutes: usize, allowed: usize) -> bool
    ensures { result ≡ pebble_of p q target minutes allowed }
{
    !heavy(p, q, target, minutes) && 2 <= sets::choices(allowed)
}

// Benches, jobs, and bound d, small d, limit d; no rocks yet.
pub fn limits(benches: usize, jobs: usize, p: usize, q: usize, target: usize) -> Limits
    ensures { result ≡ limits_of benches jobs p q target }
{
    let five = arrays::times(5, q);
    Limits {
        benches,
        jobs,
        rocks: 0,
        bound: arrays::times(five.saturating_add(p), target),
        small: arrays::times(arrays::times(2, q).saturating_add(p), target),
        limit: arrays::times(five.saturating_sub(arrays::times(2, p)), target),
    }
}

// The first entries, one for each job, become what the rule says of it.
fn fill_jobs<T: Entry, F: Fn(usize) -> T>(jobs: usize, table: &mut [T], rule: F)
    requires { F.IsAlwaysCallable rule }
    ensures { (f : ℕ → T) → ((j : ℕ) → (x : T) → j < jobs → F.post rule j x → x ≡ f j)
        → table.new ≡ filled jobs f table.old }
{
    for j in 0..jobs.min(table.len()) {
        arrays::put(table, j, rule(j));
    }
}

// Entry j: weight d j.
pub fn weigh(jobs: usize, q: usize, minutes: &[usize], weight: &mut [usize])
    ensures { weight.new
        ≡ filled jobs (λ j. times_of (times_of 3 q) (get_or minutes.now j 0)) weight.old }
{
    let scale = arrays::times(3, q);
    fill_jobs(
        jobs,
        weight,
        |j| arrays::times(scale, arrays::at(minutes, j)),
    );
}

// Entry j: rock d j.
pub fn mark_rocks(
    jobs: usize,
    p: usize,
    q: usize,
    target: usize,
    minutes: &[usize],
    allowed: &[usize],
    rock: &mut [bool],
)
    ensures { rock.new
        ≡ filled jobs (λ j. rock_of p q target (get_or minutes.now j 0) (get_or allowed.now j 0))
        rock.old }
{
    fill_jobs(
        jobs,
        rock,
        |j| is_rock(p, q, target, arrays::at(minutes, j), arrays::at(allowed, j)),
    );
}

// Entry j: pebble d j.
pub fn mark_pebbles(
    jobs: usize,
    p: usize,
    q: usize,
    target: usize,
    minutes: &[usize],
    allowed: &[usize],
    pebble: &mut [bool],
)
    ensures { pebble.new
        ≡ filled jobs (λ j. pebble_of p q target (get_or minutes.now j 0) (get_or allowed.now j 0))
        pebble.old }
{
    fill_jobs(
        jobs,
        pebble,
        |j| is_pebble(p, q, target, arrays::at(minutes, j), arrays::at(allowed, j)),
    );
}

// Entry j: the benches that job j allows where it is a pebble, and else none.
pub fn choose(jobs: usize, pebble: &[bool], allowed: &[usize], choices: &mut [usize])
    ensures { choices.new
        ≡ filled jobs (λ j. cond (get_or pebble.now j false) (get_or allowed.now j 0) 0)
        choices.old }
{
    fill_jobs(
        jobs,
        choices,
        |j| arrays::where_marked(pebble, j, arrays::at(allowed, j), 0),
    );
}

// Entry j: lowest d j.
pub fn place_lowest(jobs: usize, allowed: &[usize], place: &mut [usize])
    ensures { place.new
        ≡ filled jobs (λ j. lowest_of (get_or allowed.now j 0)) place.old }
{
    fill_jobs(jobs, place, |j| sets::lowest(arrays::at(allowed, j)));
}

// The marked jobs, rising, with their ends; how many there are.
pub fn gather(
    jobs: usize,
    marked: &[bool],
    allowed: &[usize],
    job: &mut [usize],
    low: &mut [usize],
    high: &mut [usize],
) -> usize
    ensures { (result ≡ count jobs (λ j. get_or marked.now j false))
        × (job.new
        ≡ filled result (λ r. get_or (members jobs (λ j. get_or marked.now j false)) r 0) job.old)
        × (low.new
        ≡ filled result
        (λ r. lowest_of
        (get_or allowed.now (get_or (members jobs (λ j. get_or marked.now j false)) r 0) 0))
        low.old)
        × (high.new
        ≡ filled result
        (λ r. highest_of
        (get_or allowed.now (get_or (members jobs (λ j. get_or marked.now j false)) r 0) 0))
        high.old) }
{
    let mut k = 0;
    for j in 0..jobs {
        if arrays::at(marked, j) {
            let set = arrays::at(allowed, j);
            arrays::put(job, k, j);
            arrays::put(low, k, sets::lowest(set));
            arrays::put(high, k, sets::highest(set));
            k += 1;
        }
    }
    k
}

// The first job that is longer than the target, if there is one.
pub fn long_job(jobs: usize, target: usize, minutes: &[usize]) -> Option<usize>
    ensures { result ≡ first jobs (λ j. ltb target (get_or minutes.now j 0)) }
{
    (0..jobs).find(|&j| target < arrays::at(minutes, j))
}
