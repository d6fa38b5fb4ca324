// The rule for the rocks that stay neutral.
ghost use Rattle.std.specs.Prelude.{ℕ, ◌<◌, ◌≡◌, Bool, ◌&&◌, List, set, ltb};
ghost use Rattle.std.specs.Bool.{then_some};
ghost use Rattle.bits.specs.Bits.{is_set};
ghost use Rattle.algorithm.specs.Board.{Board, Directions};
ghost use Rattle.algorithm.specs.Settle.{follow, settle_system, settle};
ghost use Rattle.arrays.specs.Arrays.{plus_of};
ghost use Rattle.rocks.specs.RockArrays.{first, lowest_end, touches_at, other_at};
ghost use Rattle.rocks.specs.BoardArrays.{Rocks, Directed};
ghost use Rattle.rocks.specs.SpreadArrays.{neutral_rock};
ghost use Rattle.settle.specs.SettleArrays.{follows_at, ShowsMarks};

use rocks::{Balance, Limits};

// Whether rock r is neutral and bench v, one of its ends, is marked.
fn follows(dir: &[usize], marked: usize, r: usize, v: usize) -> bool
    ensures { result ≡ follows_at dir.now (is_set 64 marked) r v }
{
    arrays::at(dir, r) == 0 && sets::has(marked, v)
}

// The lowest marked bench with a neutral rock, if there is one.
fn first_neutral(
    n: Limits,
    low: &[usize],
    high: &[usize],
    dir: &[usize],
    marked: usize,
) -> Option<usize>
    ensures { let v = lowest_end n.benches n.rocks low.now high.now (follows_at dir.now (is_set 64 marked)) in
        result ≡ then_some (ltb v n.benches) v }
{
    let mut v = n.benches;
    for r in 0..n.rocks {
        let lo = arrays::at(low, r);
        v = arrays::lower(v, lo, follows(dir, marked, r, lo));
        let hi = arrays::at(high, r);
        v = arrays::lower(v, hi, follows(dir, marked, r, hi));
    }
    (v < n.benches).then_some(v)
}

// The first neutral rock at v, if there is one.
fn neutral_rock(n: Limits, low: &[usize], high: &[usize], dir: &[usize], v: usize) -> Option<usize>
    ensures { result ≡ first n.rocks (λ i. touches_at low.now high.now i v && neutral_rock dir.now i) }
{
    (0..n.rocks).find(|&r| rocks::touches(low, high, r, v) && arrays::at(dir, r) == 0)
}

// Directs rock r away from v, and says where to.
fn turn(low: &[usize], high: &[usize], dir: &mut [usize], r: usize, v: usize) -> usize
    ensures { (result ≡ other_at low.now high.now r v)
        × (dir.new ≡ set dir.old r (plus_of result 1)) }
{
    let u = rocks::other(low, high, r, v);
    arrays::put(dir, r, u.saturating_add(1));
    u
}

// Every neutral rock at a marked bench leaves it, and marks its other end.
fn follow(n: Limits, low: &[usize], high: &[usize], dir: &mut [usize], first: usize)
    ensures { (b : Board) → (weight : List ℕ) → (dirs : Directions) → (ms : List Bool)
        → Rocks b n low.now high.now weight → Directed b dirs dir.old
        → ShowsMarks b ms first → Directed b (follow b.jobs b dirs ms) dir.new }
{
    let mut marked = first;
    for _ in 0..n.jobs {
        let Some(v) = first_neutral(n, low, high, dir, marked) else {
            return;
        };
        let Some(r) = neutral_rock(n, low, high, dir, v) else {
            return;
        };
        let u = turn(low, high, dir, r, v);
        marked = sets::with(marked, u);
    }
}

// Settles the neutral tree or cycle of bench v.
fn settle_system(n: Limits, low: &[usize], high: &[usize], dir: &mut [usize], v: usize)
    ensures { (b : Board) → (weight : List ℕ) → (dirs : Directions)
        → Rocks b n low.now high.now weight → Directed b dirs dir.old → v < b.benches
        → Directed b (settle_system b dirs v) dir.new }
{
    let alone = sets::with(0, v);
    let system = rocks::spread(n, low, high, dir, alone);
    if rocks::set_balance(n, low, dir, system) == Balance::Tree {
        follow(n, low, high, dir, alone);
        return;
    }
    let Some(r) = rocks::first_inside(n, low, dir, system) else {
        return;
    };
    let u = turn(low, high, dir, r, arrays::at(low, r));
    follow(n, low, high, dir, sets::with(0, u));
}

// One neutral tree or cycle after another, by lowest bench.
pub fn settle(n: Limits, low: &[usize], high: &[usize], dir: &mut [usize])
    ensures { (b : Board) → (weight : List ℕ) → (dirs : Directions)
        → Rocks b n low.now high.now weight → Directed b dirs dir.old
        → Directed b (settle b dirs) dir.new }
{
    let all = sets::everywhere(n.benches);
    for _ in 0..n.jobs {
        let Some(v) = first_neutral(n, low, high, dir, all) else {
            return;
        };
        settle_system(n, low, high, dir, v);
    }
}
