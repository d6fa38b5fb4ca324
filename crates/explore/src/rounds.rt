// EXPLORE2: the rounds, with the benches in reach of the round before.
ghost use Rattle.std.specs.Prelude.{◌≡◌, ℕ, ◌<◌, ◌≤◌, cond, ◌&&◌, not, ltb, get_or, length, set, replicate};
ghost use Rattle.bits.specs.Bits.{is_set};
ghost use Rattle.algorithm.specs.Board.{Board};
ghost use Rattle.algorithm.specs.Explore.{explore as explored};
ghost use Rattle.rocks.specs.RockArrays.{within_at};
ghost use Rattle.rocks.specs.BoardArrays.{Owned, Pebbles};
ghost use Rattle.explore.specs.ExploreArrays.{added_at, opens_at, Reaches, Blank};
ghost use Rattle.rock_graph.specs.Graph.{RockGraph};
ghost use Rattle.rocks.specs.Shown.{Shown, ShowsActive};

use rock_graph::Graph;
use rocks::Limits;

// Job j, where it is a pebble, adds the benches that it allows to the set of the bench on which it lies.
fn add_pebble(pebble: &[bool], allowed: &[usize], place: &[usize], reach: &mut [usize], j: usize)
    ensures { reach.new
        ≡ added_at pebble.now allowed.now place.now reach.old j }
{
    if arrays::at(pebble, j) {
        let u = arrays::at(place, j);
        let set = arrays::at(reach, u) | arrays::at(allowed, j);
        arrays::put(reach, u, set);
    }
}

// Entry u: the benches that a pebble on u allows, as a set.
pub fn fill_reach(
    n: Limits,
    pebble: &[bool],
    allowed: &[usize],
    place: &[usize],
    reach: &mut [usize],
)
    ensures { (b : Board) → n.jobs ≡ b.jobs → b.benches ≤ 64
        → Pebbles b pebble.now allowed.now place.now
        → reach.old ≡ replicate 64 0 → Reaches b reach.new }
{
    for j in 0..n.jobs {
        add_pebble(pebble, allowed, place, reach, j);
    }
}

// The overloaded benches, as a set.
fn overloaded(n: Limits, load: &[usize]) -> usize
    ensures { (v : ℕ) → v < 64
        → is_set 64 result v ≡ (ltb v n.benches && ltb n.bound (get_or load.now v 0)) }
{
    let mut over = 0;
    for v in 0..n.benches {
        over = sets::add(over, v, n.bound < arrays::at(load, v));
    }
    over
}

// The benches that open round i.
fn opening(n: Limits, i: usize, all: usize, active: usize, reached: usize, load: &[usize]) -> usize
    ensures { (v : ℕ) → v < 64 → is_set 64 result v ≡ opens_at n i all active reached load.now v }
{
    if i == 0 {
        overloaded(n, load)
    } else {
        sets::common(all, sets::less(reached, active))
    }
}

// Bench v joins the conflict set in round i, unless it is in it.
fn enter(benches: usize, i: usize, joined: &mut [usize], v: usize)
    ensures { joined.new
        ≡ cond (within_at benches joined.old v) joined.old (set joined.old v i) }
{
    if !rocks::within(benches, joined, v) {
        arrays::put(joined, v, i);
    }
}

// The benches of the set are activated in round i, and join the conflict set unless they are in it.
fn enter_all(benches: usize, i: usize, set: usize, joined: &mut [usize], level: &mut [usize])
    ensures { ((v : ℕ) → v < length joined.old → v < 64
        → get_or joined.new v 0
        ≡ cond (is_set 64 set v && not (within_at benches joined.old v)) i
        (get_or joined.old v 0))
        × ((v : ℕ) → v < length level.old
        → get_or level.new v 0 ≡ cond (ltb v 64 && is_set 64 set v) i (get_or level.old v 0)) }
{
    let mut left = set;
    while 0 < left {
        let v = sets::lowest(left);
        arrays::put(level, v, i);
        enter(benches, i, joined, v);
        left = sets::after(left, v);
    }
}

// The levels and the conflict set with which open_round b i x begins; the benches that open it.
fn open_round(
    n: Limits,
    i: usize,
    all: usize,
    active: usize,
    reached: usize,
    load: &[usize],
    joined: &mut [usize],
    level: &mut [usize],
) -> usize
    ensures { ((v : ℕ) → v < 64 → is_set 64 result v ≡ opens_at n i all active reached load.now v)
        × ((v : ℕ) → v < length joined.old → v < 64
        → get_or joined.new v 0
        ≡ cond (is_set 64 result v && not (within_at n.benches joined.old v)) i
        (get_or joined.old v 0))
        × ((v : ℕ) → v < length level.old
        → get_or level.new v 0 ≡ cond (ltb v 64 && is_set 64 result v) i (get_or level.old v 0)) }
{
    let opened = opening(n, i, all, active, reached, load);
    enter_all(n.benches, i, opened, joined, level);
    opened
}

// explore b, where dir is 0 everywhere, load is own, and joined and level are never everywhere.
// Kept in the rounds: the neutral rocks, the activated benches, those of the round before, and those of the conflict
// set that may be activated yet.
pub fn explore(
    n: Limits,
    graph: &Graph,
    own: &[usize],
    reach: &[usize],
    dir: &mut [usize],
    load: &mut [usize],
    joined: &mut [usize],
    level: &mut [usize],
) -> usize
    ensures { (b : Board) → RockGraph b n graph.now → Owned b own.now
        → Reaches b reach.now
        → Blank n own.now dir.old load.old joined.old level.old
        → Shown b (explored b) dir.new load.new joined.new level.new
        × ShowsActive b (explored b) result }
{
    let all = graph.every_bench;
    let touched = graph.touched;
    let f = forced::force(n, graph, touched, graph.every_rock, dir, load);
    let mut neutral = f.neutral;
    let mut active = 0;
    let mut fresh = 0;
    let mut wait = 0;
    for i in 0..=n.benches {
        let rest = sets::less(all, active);
        let reached = sets::reach_of(reach, fresh, rest);
        let opened = open_round(n, i, all, active, reached, load, joined, level);
        if opened == 0 {
            break;
        }
        let cand = graph.neighbours_of(opened, touched);
        let grown = conflict::construct(
            n,
            i,
            graph,
            cand,
            sets::common(opened, touched),
            neutral,
            dir,
            load,
            joined,
        );
        neutral = grown.neutral;
        let asked = sets::common(all, sets::less(sets::either(wait, grown.benches), opened));
        wait = activation::activate(n, i, graph, asked, own, dir, joined, level);
        fresh = sets::either(opened, sets::less(asked, wait));
        active = sets::either(active, fresh);
    }
    active
}
