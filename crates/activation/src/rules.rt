// Activation of benches by Rules 1 and 2.
ghost use Rattle.std.specs.Prelude.{◌≡◌, ℕ, ◌<◌, ◌≤◌, cond, ◌&&◌, not, List, get_or, length};
ghost use Rattle.bits.specs.Bits.{is_set};
ghost use Rattle.algorithm.specs.Board.{Board, Directions};
ghost use Rattle.algorithm.specs.Explore.{activate as activated};
ghost use Rattle.rocks.specs.BoardArrays.{Directed, Owned, Rounds};
ghost use Rattle.rock_graph.specs.Graph.{incidents, lows, highs, weights, RockGraph};
ghost use Rattle.activation.specs.ActivationArrays.{rule_one_at, rule_two_at, activates_at, Waits};
ghost use Rattle.forced.specs.CandidateArrays.{some_rock, bench_of};

use rock_graph::Graph;
use rocks::Limits;

// critical b dir joined v, by the rock r.
fn rule_one(
    n: Limits,
    graph: &Graph,
    own: &[usize],
    dir: &[usize],
    joined: &[usize],
    r: usize,
    v: usize,
) -> bool
    ensures { result
        ≡ rule_one_at n (lows graph.now) (highs graph.now) (weights graph.now)
        own.now dir.now
        joined.now r v }
{
    graph.father(n.benches, dir, joined, r, v)
        && arrays::exceeds(n.bound, arrays::at(own, v), graph.weight(r))
}

// rule2 b dir joined level v, by the rock r.
fn rule_two(
    n: Limits,
    graph: &Graph,
    dir: &[usize],
    joined: &[usize],
    level: &[usize],
    r: usize,
    v: usize,
) -> bool
    ensures { result
        ≡ rule_two_at n (lows graph.now) (highs graph.now) (weights graph.now)
        dir.now
        joined.now level.now r v }
{
    graph.weight(r) < n.small
        && rocks::within(n.benches, level, graph.end_of(r, v))
        && (graph.father(n.benches, dir, joined, r, v) || graph.child(n.benches, dir, joined, r, v))
}

// Whether v is to be activated, by the rock r.
fn activates(
    n: Limits,
    graph: &Graph,
    own: &[usize],
    dir: &[usize],
    joined: &[usize],
    level: &[usize],
    r: usize,
    v: usize,
) -> bool
    ensures { result
        ≡ activates_at n (lows graph.now) (highs graph.now) (weights graph.now)
        own.now
        dir.now joined.now level.now r v }
{
    rocks::within(n.benches, joined, v)
        && !rocks::within(n.benches, level, v)
        && (rule_one(n, graph, own, dir, joined, r, v)
            || rule_two(n, graph, dir, joined, level, r, v))
}

// Whether v is to be activated, by one of its rocks.
fn active_by(
    n: Limits,
    graph: &Graph,
    own: &[usize],
    dir: &[usize],
    joined: &[usize],
    level: &[usize],
    v: usize,
) -> bool
    ensures { result
        ≡ some_rock (incidents graph.now)
        (activates_at n (lows graph.now) (highs graph.now) (weights graph.now)
        own.now
        dir.now joined.now level.now) v }
{
    let mut left = graph.incident(v);
    while 0 < left {
        let r = sets::lowest(left);
        if activates(n, graph, own, dir, joined, level, r, v) {
            return true;
        }
        left = sets::after(left, r);
    }
    false
}

// The lowest bench of the set that is to be activated.
fn first_active(
    n: Limits,
    graph: &Graph,
    wait: usize,
    own: &[usize],
    dir: &[usize],
    joined: &[usize],
    level: &[usize],
) -> Option<usize>
    ensures { result
        ≡ bench_of (incidents graph.now)
        (activates_at n (lows graph.now) (highs graph.now) (weights graph.now)
        own.now
        dir.now joined.now level.now) wait }
{
    let mut left = wait;
    while 0 < left {
        let v = sets::lowest(left);
        if active_by(n, graph, own, dir, joined, level, v) {
            return Some(v);
        }
        left = sets::after(left, v);
    }
    None
}

// activate benches b i dir joined level, where every bench that may be activated waits. Says which still do.
pub fn activate(
    n: Limits,
    i: usize,
    graph: &Graph,
    wait: usize,
    own: &[usize],
    dir: &[usize],
    joined: &[usize],
    level: &mut [usize],
) -> usize
    ensures { ((v : ℕ) → v < length level.old → v < 64
        → get_or level.new v 0
        ≡ cond (is_set 64 wait v && not (is_set 64 result v)) i (get_or level.old v 0))
        × ((b : Board) → (dirs : Directions) → (xs : List ℕ) → (ys : List ℕ)
        → RockGraph b n graph.now
        → i ≤ n.benches → Waits n joined.now level.old wait → Owned b own.now
        → Directed b dirs dir.now → Rounds b xs joined.now → Rounds b ys level.old
        → Rounds b (activated b.benches b i dirs xs ys) level.new) }
{
    let mut left = wait;
    for _ in 0..n.benches {
        let Some(v) = first_active(n, graph, left, own, dir, joined, level) else {
            break;
        };
        arrays::put(level, v, i);
        left = sets::less(left, sets::with(0, v));
    }
    left
}
