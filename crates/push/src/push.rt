// PUSH (Definition 4.4.3).
ghost use Rattle.std.specs.Prelude.{◌≡◌, ℕ, ◌+◌, ◌<◌, ◌&&◌, ◌||◌, List, bit_and, get_or, length, replicate, eqb, ltb};
ghost use Rattle.sums.specs.Search.{any};
ghost use Rattle.algorithm.specs.Board.{Board};
ghost use Rattle.algorithm.specs.Explore.{Explored};
ghost use Rattle.rocks.specs.RockArrays.{first, within_at, touches_at, child_at};
ghost use Rattle.rocks.specs.BoardArrays.{Owned, Rounds};
ghost use Rattle.rock_graph.specs.declared.lent.Graph.{Graph};
ghost use Rattle.rock_graph.specs.Graph.{lows, highs, weights, RockGraph};
ghost use Rattle.rocks.specs.Shown.{Shown};
ghost use Rattle.bits.specs.Bits.{is_set};
ghost use Rattle.push.specs.PushArrays.{heavy_at, receives_at, opens, goes, Receivers, Choices, first_move};

use rock_graph::Graph;
use rocks::Limits;

// A job and the bench it goes to.
#[derive(Drop)]
pub struct Move {
    pub job: usize,
    pub bench: usize,
}

// The benches with a child, and those with a father that is too heavy for light_fathers.
#[derive(Clone, Copy)]
pub struct Marks {
    pub children: usize,
    pub heavy: usize,
}

// The marks, with those of a rock of weight w that leads from bench t to bench h.
fn mark_edge(
    n: Limits,
    own: &[usize],
    joined: &[usize],
    m: Marks,
    t: usize,
    h: usize,
    w: usize,
) -> Marks
    ensures { ((v : ℕ) → v < 64
        → is_set 64 result.children v
        ≡ (is_set 64 m.children v || (within_at n.benches joined.now t && eqb v h)))
        × ((v : ℕ) → v < 64
        → is_set 64 result.heavy v
        ≡ (is_set 64 m.heavy v
        || ((within_at n.benches joined.now h && ltb n.limit (get_or own.now t 0 + w))
        && eqb v t))) }
{
    let mut children = m.children;
    let mut heavy = m.heavy;
    if rocks::within(n.benches, joined, t) {
        children = sets::with(children, h);
    }
    if rocks::within(n.benches, joined, h) {
        if arrays::exceeds(n.limit, arrays::at(own, t), w) {
            heavy = sets::with(heavy, t);
        }
    }
    Marks { children, heavy }
}

// The marks, with those of rock r.
fn mark_rock(
    n: Limits,
    graph: &Graph,
    own: &[usize],
    dir: &[usize],
    joined: &[usize],
    m: Marks,
    r: usize,
) -> Marks
    ensures { ((v : ℕ) → v < 64
        → is_set 64 result.children v
        ≡ (is_set 64 m.children v
        || (touches_at (lows graph.now) (highs graph.now) r v
        && child_at n.benches (lows graph.now) (highs graph.now) dir.now
        joined.now
        r v)))
        × ((v : ℕ) → v < 64
        → is_set 64 result.heavy v
        ≡ (is_set 64 m.heavy v
        || (touches_at (lows graph.now) (highs graph.now) r v
        && heavy_at n.benches n.limit (lows graph.now) (highs graph.now)
        (weights graph.now)
        own.now dir.now joined.now r v))) }
{
    let d = arrays::at(dir, r);
    let lo = graph.low(r);
    let hi = graph.high(r);
    let w = graph.weight(r);
    if d == lo.saturating_add(1) {
        return mark_edge(n, own, joined, m, hi, lo, w);
    }
    if d == hi.saturating_add(1) {
        return mark_edge(n, own, joined, m, lo, hi, w);
    }
    m
}

// The marks of all rocks: the opposites of leaf b x v and of light_fathers b x v.
fn mark_all(n: Limits, graph: &Graph, own: &[usize], dir: &[usize], joined: &[usize]) -> Marks
    ensures { ((v : ℕ) → v < 64
        → is_set 64 result.children v
        ≡ any n.rocks
        (λ r. touches_at (lows graph.now) (highs graph.now) r v
        && child_at n.benches (lows graph.now) (highs graph.now) dir.now
        joined.now
        r v))
        × ((v : ℕ) → v < 64
        → is_set 64 result.heavy v
        ≡ any n.rocks
        (λ r. touches_at (lows graph.now) (highs graph.now) r v
        && heavy_at n.benches n.limit (lows graph.now) (highs graph.now)
        (weights graph.now)
        own.now dir.now joined.now r v)) }
{
    let mut m = Marks {
        children: 0,
        heavy: 0,
    };
    for r in 0..n.rocks {
        m = mark_rock(n, graph, own, dir, joined, m, r);
    }
    m
}

// What can_push b x j v asks of v alone: activated, load within the limit, leaf or light fathers.
fn receives(n: Limits, load: &[usize], level: &[usize], m: Marks, v: usize) -> bool
    ensures { result
        ≡ receives_at n.benches n.limit load.now level.now m.children m.heavy v }
{
    rocks::within(n.benches, level, v)
        && arrays::at(load, v) <= n.limit
        && (!sets::has(m.children, v) || !sets::has(m.heavy, v))
}

// Bench v, where it may receive, goes into the set of its level.
fn add_receiver(
    n: Limits,
    load: &[usize],
    level: &[usize],
    m: Marks,
    receivers: &mut [usize],
    v: usize,
)
    ensures { (l : ℕ) → (u : ℕ) → l < length receivers.old → u < 64
        → is_set 64 (get_or receivers.new l 0) u
        ≡ (is_set 64 (get_or receivers.old l 0) u
        || (eqb u v
        && (eqb l (get_or level.now v 0)
        && receives_at n.benches n.limit load.now level.now m.children m.heavy
        v))) }
{
    if receives(n, load, level, m, v) {
        let l = arrays::at(level, v);
        let set = sets::with(arrays::at(receivers, l), v);
        arrays::put(receivers, l, set);
    }
}

// Entry l: the benches of level l that may receive, as a set.
pub fn fill_receivers(
    n: Limits,
    graph: &Graph,
    own: &[usize],
    dir: &[usize],
    load: &[usize],
    joined: &[usize],
    level: &[usize],
    receivers: &mut [usize],
)
    ensures { (b : Board) → (x : Explored)
        → RockGraph b n graph.now → Owned b own.now
        → Shown b x dir.now load.now joined.now level.now
        → receivers.old ≡ replicate 66 0 → Receivers b x receivers.new }
{
    let m = mark_all(n, graph, own, dir, joined);
    for v in 0..n.benches {
        add_receiver(n, load, level, m, receivers, v);
    }
}

// Every bench, as a set. It is made in constant time, since each search for a push makes it.
fn all_benches(benches: usize) -> usize
    ensures { (v : ℕ) → v < 64 → is_set 64 result v ≡ ltb v benches }
{
    let past = sets::with(sets::above(usize::MAX, benches), benches);
    sets::less(usize::MAX, past)
}

// The benches of `all` that job j may choose from and that receive, one level above the bench on which it lies.
fn open_benches(
    all: usize,
    choice: &[usize],
    place: &[u8],
    level: &[usize],
    receivers: &[usize],
    j: usize,
) -> usize
    ensures { result ≡ bit_and (opens choice.now place.now level.now receivers.now j) all }
{
    let sender = arrays::at(level, usize::from(arrays::at(place, j)));
    let fit = arrays::at(choice, j) & arrays::at(receivers, sender.saturating_add(1));
    fit & all
}

// The first of the jobs that may go to a bench of `all`, if there is one.
fn first_job(
    jobs: usize,
    all: usize,
    choice: &[usize],
    place: &[u8],
    level: &[usize],
    receivers: &[usize],
) -> Option<usize>
    ensures { result ≡ first jobs (goes choice.now place.now level.now receivers.now all) }
{
    (0..jobs).find(|&j| open_benches(all, choice, place, level, receivers, j) != 0)
}

// The first job that may go one level up, and its first bench there.
pub fn first_push(
    n: Limits,
    choice: &[usize],
    place: &[u8],
    level: &[usize],
    receivers: &[usize],
) -> Option<Move>
    ensures { (b : Board) → (x : Explored) → (graph : Graph) → RockGraph b n graph
        → Choices b choice.now place.now → Rounds b x.level level.now
        → Receivers b x receivers.now → result ≡ first_move b x }
{
    let all = all_benches(n.benches);
    // A job past the end of the table may go nowhere.
    let jobs = n.jobs.min(choice.len());
    let job = first_job(jobs, all, choice, place, level, receivers)?;
    let bench = sets::lowest(open_benches(all, choice, place, level, receivers, job));
    Some(Move { job, bench })
}
