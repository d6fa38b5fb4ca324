// FORCED ORIENTATIONS. Only benches of a set that has every bench from which a rock is forced are looked at.
ghost use Rattle.std.specs.Prelude.{◌≡◌, true, not, ◌&&◌, ◌||◌, eqb, List, ℕ, ◌<◌, set, get_or};
ghost use Rattle.std.specs.Prelude.{Some, None, MatchOption};
ghost use Rattle.algorithm.specs.Board.{Board, Directions};
ghost use Rattle.algorithm.specs.Forced.{inner, nobody, forced_orientations};
ghost use Rattle.rocks.specs.BoardArrays.{Seen};
ghost use Rattle.forced.specs.SetArrays.{forces_at, Covers, Nowhere, Tails};
ghost use Rattle.rock_graph.specs.Neighbours.{Incident};
ghost use Rattle.rock_graph.specs.Graph.{incidents, lows, highs, weights, RockGraph};
ghost use Rattle.forced.specs.CandidateArrays.{Neutral, rock_of, bench_of, Left, CoversBut};
ghost use Rattle.bits.specs.Bits.{is_set};
ghost use Rattle.arrays.specs.Arrays.{plus_of};
ghost use Rattle.rocks.specs.RockArrays.{other_at};

use rock_graph::Graph;
use rocks::Limits;

// A bench, the first rock that is forced from it, and the candidates that are left.
#[derive(Drop)]
struct Found {
    bench: usize,
    rock: usize,
    left: usize,
}

// The benches at which something changed, and the rocks that are neutral then.
#[derive(Drop)]
pub struct Changed {
    pub benches: usize,
    pub neutral: usize,
}

// The first rock that is forced from v.
fn forced_rock(
    bound: usize,
    graph: &Graph,
    neutral: usize,
    load: &[usize],
    v: usize,
) -> Option<usize>
    ensures { (n : Limits) → (dir : List ℕ)
        → Incident n (lows graph.now) (highs graph.now) (incidents graph.now)
        → Neutral n dir neutral → v < 64
        → result ≡ rock_of (incidents graph.now) (forces_at bound (weights graph.now) dir
        load.now) v }
{
    let mut left = sets::common(graph.incident(v), neutral);
    while 0 < left {
        let r = sets::lowest(left);
        if arrays::exceeds(bound, arrays::at(load, v), graph.weight(r)) {
            return Some(r);
        }
        left = sets::after(left, r);
    }
    None
}

// The lowest candidate from which a rock is forced.
fn first_forcing(
    bound: usize,
    graph: &Graph,
    neutral: usize,
    load: &[usize],
    cand: usize,
) -> Option<Found>
    ensures { (n : Limits) → (dir : List ℕ)
        → Incident n (lows graph.now) (highs graph.now) (incidents graph.now)
        → Neutral n dir neutral
        → MatchOption result
        (None ≡ bench_of (incidents graph.now) (forces_at bound (weights graph.now) dir
        load.now) cand)
        (λ f. (Some f.bench ≡ bench_of (incidents graph.now) (forces_at bound (weights graph.now) dir
        load.now) cand)
        × (Some f.rock ≡ rock_of (incidents graph.now) (forces_at bound (weights graph.now) dir
        load.now) f.bench)
        × Left (incidents graph.now) (forces_at bound (weights graph.now) dir load.now) cand f.left) }
{
    let mut left = cand;
    while 0 < left {
        let bench = sets::lowest(left);
        if let Some(rock) = forced_rock(bound, graph, neutral, load, bench) {
            return Some(Found { bench, rock, left });
        }
        left = sets::after(left, bench);
    }
    None
}

// Directs the rock away from its bench, and says where to.
fn direct(
    graph: &Graph,
    bench: usize,
    rock: usize,
    dir: &mut [usize],
    load: &mut [usize],
    changed: &mut Changed,
) -> usize
    ensures { (result ≡ other_at (lows graph.now) (highs graph.now) rock bench)
        × (dir.new ≡ set dir.old rock (plus_of result 1))
        × (load.new ≡ set load.old result (plus_of (get_or load.old result 0) (get_or (weights graph.now) rock 0)))
        × ((v : ℕ) → v < 64 → is_set 64 changed.new.benches v ≡ (is_set 64 changed.old.benches v || eqb v bench))
        × ((r : ℕ) → r < 64 → is_set 64 changed.new.neutral r ≡ (is_set 64 changed.old.neutral r && not (eqb r rock))) }
{
    changed.benches = sets::with(changed.benches, bench);
    changed.neutral = sets::less(changed.neutral, sets::with(0, rock));
    graph.direct(dir, load, rock, bench)
}

// The rocks that are forced from `first`, and from the benches that these come to. Says from which benches a rock may
// be forced then.
fn force_marked(
    n: Limits,
    graph: &Graph,
    watch: usize,
    first: usize,
    dir: &mut [usize],
    load: &mut [usize],
    changed: &mut Changed,
) -> usize
    ensures { (b : Board) → (dirs : Directions)
        → RockGraph b n graph.now
        → Neutral n dir.old changed.old.neutral
        → CoversBut n (lows graph.now) (highs graph.now)
        (forces_at n.bound (weights graph.now) dir.old load.old) watch
        first
        → first < 64 → Seen b dirs dir.old load.old
        → Seen b (inner b.jobs b dirs (set (nobody b) first true)) dir.new load.new
        × Covers n (lows graph.now) (highs graph.now)
        (forces_at n.bound (weights graph.now) dir.new load.new) result
        × ((dir₀ : List ℕ) → Tails n (lows graph.now) (highs graph.now) dir₀ dir.old
        changed.old.benches
        → Tails n (lows graph.now) (highs graph.now) dir₀ dir.new changed.new.benches)
        × Neutral n dir.new changed.new.neutral }
{
    let mut cand = sets::with(0, first);
    for _ in 0..n.jobs {
        let Some(f) = first_forcing(n.bound, graph, changed.neutral, load, cand) else {
            return watch;
        };
        let u = direct(graph, f.bench, f.rock, dir, load, changed);
        cand = sets::with(f.left, u);
    }
    watch | cand
}

// From every bench; says which benches a rock was directed away from, and which rocks are neutral then.
pub fn force(
    n: Limits,
    graph: &Graph,
    watch: usize,
    neutral: usize,
    dir: &mut [usize],
    load: &mut [usize],
) -> Changed
    ensures { (b : Board) → (dirs : Directions)
        → RockGraph b n graph.now
        → Neutral n dir.old neutral
        → Covers n (lows graph.now) (highs graph.now)
        (forces_at n.bound (weights graph.now) dir.old load.old) watch
        → Seen b dirs dir.old load.old
        → Seen b (forced_orientations b dirs) dir.new load.new
        × Tails n (lows graph.now) (highs graph.now) dir.old dir.new
        result.benches
        × Nowhere n (lows graph.now) (highs graph.now)
        (forces_at n.bound (weights graph.now) dir.new load.new)
        × Neutral n dir.new result.neutral }
{
    let mut left = watch;
    let mut changed = Changed {
        benches: 0,
        neutral,
    };
    for _ in 0..n.jobs {
        let Some(f) = first_forcing(n.bound, graph, changed.neutral, load, left) else {
            break;
        };
        let u = direct(graph, f.bench, f.rock, dir, load, &mut changed);
        left = force_marked(n, graph, f.left, u, dir, load, &mut changed);
    }
    changed
}
