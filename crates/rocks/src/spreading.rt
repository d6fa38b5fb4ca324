// Sets of benches that neutral rocks join, and their balances.
ghost use Rattle.std.specs.Prelude.{ℕ, ◌<◌, ◌≡◌, Bool};
ghost use Rattle.sums.specs.Sum.{count};
ghost use Rattle.closure.specs.Closure.{closure};
ghost use Rattle.bits.specs.Bits.{is_set};
ghost use Rattle.sets.specs.Sets.{choices_of};
ghost use Rattle.rocks.specs.RockArrays.{first};
ghost use Rattle.rocks.specs.SpreadArrays.{inside_at, crosses_at, join_of, widen_of};
ghost use Rattle.rocks.specs.SpreadArrays.{linked_at, balance_of, Within, Shows};

use crate::balancing::Balance;
use crate::rocks::Limits;

// Whether rock r is neutral with one end in the set and one outside.
fn crosses(low: &[usize], high: &[usize], dir: &[usize], chosen: usize, r: usize) -> bool
    ensures { result ≡ crosses_at low.now high.now dir.now (is_set 64 chosen) r }
{
    arrays::at(dir, r) == 0
        && sets::has(chosen, arrays::at(low, r)) != sets::has(chosen, arrays::at(high, r))
}

// Both ends of rock r join the set where it crosses.
fn join(low: &[usize], high: &[usize], dir: &[usize], chosen: usize, r: usize) -> usize
    ensures { (v : ℕ) → v < 64 → is_set 64 result v
        ≡ join_of low.now high.now dir.now (is_set 64 chosen) r v }
{
    if !crosses(low, high, dir, chosen, r) {
        return chosen;
    }
    let more = sets::with(chosen, arrays::at(low, r));
    sets::with(more, arrays::at(high, r))
}

// One rock after the other joins.
fn widen(n: Limits, low: &[usize], high: &[usize], dir: &[usize], chosen: usize) -> usize
    ensures { Within 64 n.rocks low.now high.now → (v : ℕ) → v < 64
        → is_set 64 result v
        ≡ widen_of low.now high.now dir.now (is_set 64 chosen) n.rocks v }
{
    let mut set = chosen;
    for r in 0..n.rocks {
        set = join(low, high, dir, set, r);
    }
    set
}

// The closure of the set under the neutral rocks.
pub fn spread(n: Limits, low: &[usize], high: &[usize], dir: &[usize], chosen: usize) -> usize
    ensures { (S : ℕ → Bool) → Within n.benches n.rocks low.now high.now
        → Shows n.benches S chosen
        → Shows n.benches
        (closure n.benches (linked_at n.rocks low.now high.now dir.now) S)
        result }
{
    let mut set = chosen;
    for _ in 0..n.benches {
        let wider = widen(n, low, high, dir, set);
        if wider == set {
            return set;
        }
        set = wider;
    }
    set
}

// Whether rock r is neutral with its lower end in the set.
fn inside(low: &[usize], dir: &[usize], chosen: usize, r: usize) -> bool
    ensures { result ≡ inside_at low.now dir.now (is_set 64 chosen) r }
{
    arrays::at(dir, r) == 0 && sets::has(chosen, arrays::at(low, r))
}

// How many rocks are inside.
fn rocks_in(n: Limits, low: &[usize], dir: &[usize], chosen: usize) -> usize
    ensures { result ≡ count n.rocks (inside_at low.now dir.now (is_set 64 chosen)) }
{
    let mut k = 0;
    for r in 0..n.rocks {
        if inside(low, dir, chosen, r) {
            k += 1;
        }
    }
    k
}

// The first rock that is inside, if there is one.
pub fn first_inside(n: Limits, low: &[usize], dir: &[usize], chosen: usize) -> Option<usize>
    ensures { result ≡ first n.rocks (inside_at low.now dir.now (is_set 64 chosen)) }
{
    (0..n.rocks).find(|&r| inside(low, dir, chosen, r))
}

// The balance of the set.
pub fn set_balance(n: Limits, low: &[usize], dir: &[usize], chosen: usize) -> Balance
    ensures { result
        ≡ balance_of (count n.rocks (inside_at low.now dir.now (is_set 64 chosen)))
        (choices_of chosen) }
{
    let rocks = rocks_in(n, low, dir, chosen);
    let size = sets::choices(chosen);
    if rocks < size {
        Balance::Tree
    } else if rocks == size {
        Balance::OneCycle
    } else {
        Balance::Crowded
    }
}
