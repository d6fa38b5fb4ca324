// The conflict set and fake orientations.
ghost use Rattle.std.specs.Prelude.{◌≡◌, ℕ, ◌≤◌, ◌<◌, List, Some, None, MatchOption};
ghost use Rattle.algorithm.specs.Board.{Board, Directions};
ghost use Rattle.algorithm.specs.Explore.{conflict_set, construct as constructed};
ghost use Rattle.rocks.specs.BoardArrays.{Directed, Rounds};
ghost use Rattle.conflict.specs.ConflictArrays.{joins_at, fake_at, Opened, Built, Finished, Grew};
ghost use Rattle.rock_graph.specs.Neighbours.{Incident};
ghost use Rattle.rock_graph.specs.Graph.{incidents, lows, highs, RockGraph};
ghost use Rattle.forced.specs.SetArrays.{Covers, Nowhere};
ghost use Rattle.forced.specs.CandidateArrays.{Neutral, rock_of, bench_of};

use forced::Changed;
use rock_graph::Graph;
use rocks::Limits;

// The lowest rock by which v joins the conflict set.
fn joining_rock(
    benches: usize,
    graph: &Graph,
    dir: &[usize],
    joined: &[usize],
    v: usize,
) -> Option<usize>
    ensures { result
        ≡ rock_of (incidents graph.now)
        (joins_at benches (lows graph.now) (highs graph.now) dir.now
        joined.now) v }
{
    if rocks::within(benches, joined, v) {
        return None;
    }
    let mut left = graph.incident(v);
    while 0 < left {
        let r = sets::lowest(left);
        if graph.father(benches, dir, joined, r, v) {
            return Some(r);
        }
        left = sets::after(left, r);
    }
    None
}

// The lowest candidate that joins the conflict set.
fn first_joining(
    benches: usize,
    graph: &Graph,
    cand: usize,
    dir: &[usize],
    joined: &[usize],
) -> Option<usize>
    ensures { result
        ≡ bench_of (incidents graph.now)
        (joins_at benches (lows graph.now) (highs graph.now) dir.now
        joined.now) cand }
{
    let mut left = cand;
    while 0 < left {
        let v = sets::lowest(left);
        if joining_rock(benches, graph, dir, joined, v).is_some() {
            return Some(v);
        }
        left = sets::after(left, v);
    }
    None
}

// conflict_set benches b i dir joined, where every bench that joins is a candidate. The result has the benches that
// joined.
fn close(
    n: Limits,
    i: usize,
    graph: &Graph,
    cand: usize,
    dir: &[usize],
    joined: &mut [usize],
) -> usize
    ensures { (b : Board) → (dirs : Directions) → (xs : List ℕ)
        → RockGraph b n graph.now → i ≤ b.benches
        → Covers n (lows graph.now) (highs graph.now)
        (joins_at n.benches (lows graph.now) (highs graph.now) dir.now
        joined.old) cand
        → Directed b dirs dir.now → Rounds b xs joined.old
        → Rounds b (conflict_set b.benches b i dirs xs) joined.new
        × Grew n joined.old joined.new result
        × Nowhere n (lows graph.now) (highs graph.now)
        (joins_at n.benches (lows graph.now) (highs graph.now) dir.now
        joined.new) }
{
    let mut cands = cand;
    let mut grown = 0;
    for _ in 0..n.benches {
        let Some(v) = first_joining(n.benches, graph, cands, dir, joined) else {
            break;
        };
        arrays::put(joined, v, i);
        grown = sets::with(grown, v);
        cands = sets::above(cands, v) | graph.neighbours(v);
    }
    grown
}

// The lowest neutral rock at v, where v is in the conflict set.
fn fake_rock(
    benches: usize,
    graph: &Graph,
    neutral: usize,
    joined: &[usize],
    v: usize,
) -> Option<usize>
    ensures { (n : Limits) → (dir : List ℕ)
        → Incident n (lows graph.now) (highs graph.now) (incidents graph.now)
        → Neutral n dir neutral → v < 64
        → result ≡ rock_of (incidents graph.now) (fake_at benches dir joined.now) v }
{
    if !rocks::within(benches, joined, v) {
        return None;
    }
    let r = sets::lowest(sets::common(graph.incident(v), neutral));
    if r < 64 { Some(r) } else { None }
}

// A bench of the conflict set, and its lowest neutral rock.
#[derive(Drop)]
struct Fake {
    bench: usize,
    rock: usize,
}

// The lowest candidate in the conflict set with a neutral rock.
fn first_fake(
    benches: usize,
    graph: &Graph,
    fakes: usize,
    neutral: usize,
    joined: &[usize],
) -> Option<Fake>
    ensures { (n : Limits) → (dir : List ℕ)
        → Incident n (lows graph.now) (highs graph.now) (incidents graph.now)
        → Neutral n dir neutral
        → MatchOption result
        (None ≡ bench_of (incidents graph.now) (fake_at benches dir joined.now) fakes)
        (λ f. (Some f.bench ≡ bench_of (incidents graph.now) (fake_at benches dir joined.now) fakes)
        × (Some f.rock ≡ rock_of (incidents graph.now) (fake_at benches dir joined.now) f.bench)) }
{
    let mut left = fakes;
    while 0 < left {
        let bench = sets::lowest(left);
        if let Some(rock) = fake_rock(benches, graph, neutral, joined, bench) {
            return Some(Fake { bench, rock });
        }
        left = sets::after(left, bench);
    }
    None
}

// construct jobs b i dir joined, where every bench that joins is in cand and every one with a rock for a fake
// orientation in fakes.
// The result has the benches that joined, and the neutral rocks.
pub fn construct(
    n: Limits,
    i: usize,
    graph: &Graph,
    cand: usize,
    fakes: usize,
    neutral: usize,
    dir: &mut [usize],
    load: &mut [usize],
    joined: &mut [usize],
) -> Changed
    ensures { (b : Board) → (dirs : Directions) → (xs : List ℕ) → RockGraph b n graph.now
        → Opened b n graph.now i dirs xs dir.old load.old joined.old cand
        fakes neutral
        → Built b (constructed b.jobs b i dirs xs) dir.new load.new joined.new
        × Grew n joined.old joined.new result.benches
        × Finished n graph.now dir.new load.new joined.new
        result.neutral }
{
    let mut joining = cand;
    let mut faking = fakes;
    let mut changed = Changed {
        benches: 0,
        neutral,
    };
    for _ in 0..n.jobs {
        let more = close(n, i, graph, joining, dir, joined);
        changed.benches |= more;
        faking |= more;
        let Some(fake) = first_fake(n.benches, graph, faking, changed.neutral, joined) else {
            return changed;
        };
        let u = graph.direct(dir, load, fake.rock, fake.bench);
        let rest = sets::less(changed.neutral, sets::with(0, fake.rock));
        let forced = forced::force(n, graph, sets::with(0, u), rest, dir, load);
        joining = forced.benches;
        changed.neutral = forced.neutral;
        faking = sets::with(sets::above(faking, fake.bench), fake.bench);
    }
    let more = close(n, i, graph, joining, dir, joined);
    changed.benches |= more;
    changed
}
