// What a move changes of the loads and of the benches in reach.
ghost use Rattle.std.specs.Prelude.{◌≡◌, ℕ, ◌<◌, true, cond, eqb, get_or};
ghost use Rattle.std.specs.Int.Bits.{bit_or};
ghost use Rattle.sums.specs.Search.{any};
ghost use Rattle.bits.specs.Bits.{is_set};
ghost use Rattle.push.specs.KeptArrays.{shifted_of, lies_at, ReachShifted};

// Weight w leaves bench u and comes to bench v.
fn shift_load(own: &mut [usize], u: usize, v: usize, w: usize)
    ensures { own.new ≡ shifted_of own.old u v w }
{
    let less = arrays::at(own, u).saturating_sub(w);
    arrays::put(own, u, less);
    let more = arrays::at(own, v).saturating_add(w);
    arrays::put(own, v, more);
}

// The set, and where job j is on u also its choice.
fn reach_more(choice: &[usize], place: &[u8], u: usize, j: usize, set: usize) -> usize
    ensures { result
        ≡ cond (eqb (get_or place.now j 0) u) (bit_or set (get_or choice.now j 0)) set }
{
    if usize::from(arrays::at(place, j)) == u {
        set | arrays::at(choice, j)
    } else {
        set
    }
}

// The benches that the pebbles on u allow, all of which are in the set `full`.
fn reach_from(jobs: usize, choice: &[usize], place: &[u8], u: usize, full: usize) -> usize
    ensures { (v : ℕ) → v < 64
        → (any jobs (lies_at choice.now place.now u v) ≡ true → is_set 64 full v ≡ true)
        → is_set 64 result v ≡ any jobs (lies_at choice.now place.now u v) }
{
    let mut set = 0;
    for j in 0..jobs.min(choice.len()) {
        if set == full {
            return set;
        }
        set = reach_more(choice, place, u, j, set);
    }
    set
}

// Job j, which is now on v, was on u.
fn shift_reach(
    jobs: usize,
    choice: &[usize],
    place: &[u8],
    reach: &mut [usize],
    u: usize,
    v: usize,
    j: usize,
)
    ensures { ReachShifted jobs choice.now place.now reach.old u v j
        reach.new }
{
    let there = reach_from(jobs, choice, place, u, arrays::at(reach, u));
    let more = arrays::at(reach, v) | arrays::at(choice, j);
    arrays::put(reach, v, more);
    arrays::put(reach, u, there);
}

// Both, after job j left bench u and came to bench v, where it is now: the loads besides the rocks, and the benches in
// reach of each bench.
pub fn shift(
    jobs: usize,
    amount: &[usize],
    choice: &[usize],
    place: &[u8],
    own: &mut [usize],
    reach: &mut [usize],
    u: usize,
    v: usize,
    j: usize,
)
    ensures { (own.new ≡ shifted_of own.old u v (get_or amount.now j 0))
        × ReachShifted jobs choice.now place.now reach.old u v j
        reach.new }
{
    shift_load(own, u, v, arrays::at(amount, j));
    shift_reach(jobs, choice, place, reach, u, v, j);
}
