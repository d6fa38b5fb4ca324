// The rocks of a run, which are lent to all its steps, and tests at one of them.
ghost use Rattle.std.specs.Prelude.{◌≡◌, ℕ, ◌<◌, true, ◌&&◌, get_or, set};
ghost use Rattle.sums.specs.Search.{any};
ghost use Rattle.bits.specs.Bits.{is_set};
ghost use Rattle.arrays.specs.Arrays.{plus_of};
ghost use Rattle.rocks.specs.RockArrays.{other_at, father_at, child_at};
ghost use Rattle.rock_graph.specs.Graph.{lows, highs, weights, incidents, ends, Tabled};

use crate::maps::{fill_incident, fill_neighbours};
use rocks::Limits;

// The rocks of a run. Entry v of `ends` is a set that has the other ends of the rocks at bench v, and entry v of
// `incident` the set of these rocks; entry r of `low`, `high` and `weight` is an end or the weight of rock r. The last
// three fields are sets: one that has every bench with a rock, all benches, and all rocks.
#[derive(Drop)]
pub struct Graph {
    pub ends: [usize; 64],
    pub incident: [usize; 64],
    pub low: [usize; 64],
    pub high: [usize; 64],
    pub weight: [usize; 64],
    pub touched: usize,
    pub every_bench: usize,
    pub every_rock: usize,
}

// The first 64 entries.
fn entries(from: &[usize]) -> [usize; 64]
    ensures { (r : ℕ) → r < 64 → get_or result r 0 ≡ get_or from.now r 0 }
{
    let mut to = [0usize; 64];
    arrays::to_numbers(64, from, &mut to);
    to
}

impl Graph {
    // The rocks that the three arrays hold.
    pub fn new(n: Limits, low: &[usize], high: &[usize], weight: &[usize]) -> Graph
        ensures { Tabled n low.now high.now weight.now result }
    {
        let mut incident = [0usize; 64];
        fill_incident(n, low, high, &mut incident);
        let mut ends = [0usize; 64];
        fill_neighbours(low, high, &incident, &mut ends);
        let touched = sets::some(&incident);
        Graph {
            ends,
            incident,
            low: entries(low),
            high: entries(high),
            weight: entries(weight),
            touched,
            every_bench: sets::everywhere(n.benches),
            every_rock: sets::everywhere(n.rocks),
        }
    }

    // The low end of rock r.
    pub fn low(&self, r: usize) -> usize
        ensures { result ≡ get_or (lows self.now) r 0 }
    {
        arrays::at(&self.low, r)
    }

    // The high end of rock r.
    pub fn high(&self, r: usize) -> usize
        ensures { result ≡ get_or (highs self.now) r 0 }
    {
        arrays::at(&self.high, r)
    }

    // The weight of rock r.
    pub fn weight(&self, r: usize) -> usize
        ensures { result ≡ get_or (weights self.now) r 0 }
    {
        arrays::at(&self.weight, r)
    }

    // The rocks at bench v, as a set.
    pub fn incident(&self, v: usize) -> usize
        ensures { result ≡ get_or (incidents self.now) v 0 }
    {
        arrays::at(&self.incident, v)
    }

    // The other ends of the rocks at bench v, as a set.
    pub fn neighbours(&self, v: usize) -> usize
        ensures { result ≡ get_or (ends self.now) v 0 }
    {
        arrays::at(&self.ends, v)
    }

    // The other ends of the rocks at the benches of a set; of those that are not in `full` only some.
    pub fn neighbours_of(&self, benches: usize, full: usize) -> usize
        ensures { (v : ℕ) → v < 64 → is_set 64 full v ≡ true
            → is_set 64 result v ≡ any 64 (λ u. is_set 64 benches u && is_set 64 (get_or (ends self.now) u 0) v) }
    {
        sets::reach_of(&self.ends, benches, full)
    }

    // The other end of rock r.
    pub fn end_of(&self, r: usize, v: usize) -> usize
        ensures { result ≡ other_at (lows self.now) (highs self.now) r v }
    {
        let lo = self.low(r);
        if v == lo { self.high(r) } else { lo }
    }

    // Directs rock r away from v, and says where to.
    pub fn direct(&self, dir: &mut [usize], load: &mut [usize], r: usize, v: usize) -> usize
        ensures { (result ≡ other_at (lows self.now) (highs self.now) r v)
            × (dir.new ≡ set dir.old r (plus_of result 1))
            × (load.new ≡ set load.old result
            (plus_of (get_or load.old result 0) (get_or (weights self.now) r 0))) }
    {
        let u = self.end_of(r, v);
        arrays::put(dir, r, u.saturating_add(1));
        let sum = arrays::at(load, u).saturating_add(self.weight(r));
        arrays::put(load, u, sum);
        u
    }

    // father b dir (within b joined) v j: the rock leads from its end v to a bench of the conflict set.
    pub fn father(
        &self,
        benches: usize,
        dir: &[usize],
        joined: &[usize],
        r: usize,
        v: usize,
    ) -> bool
        ensures { result ≡ father_at benches (lows self.now) (highs self.now) dir.now
            joined.now r v }
    {
        let u = self.end_of(r, v);
        arrays::at(dir, r) == u.saturating_add(1) && rocks::within(benches, joined, u)
    }

    // child b dir (within b joined) v j: the rock leads from a bench of the conflict set to its end v.
    pub fn child(&self, benches: usize, dir: &[usize], joined: &[usize], r: usize, v: usize) -> bool
        ensures { result ≡ child_at benches (lows self.now) (highs self.now) dir.now
            joined.now r v }
    {
        arrays::at(dir, r) == v.saturating_add(1)
            && rocks::within(benches, joined, self.end_of(r, v))
    }
}
