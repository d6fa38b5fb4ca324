// The rocks at each bench, and the other ends of these, as sets.
ghost use Rattle.std.specs.Prelude.{◌≡◌, ℕ, ◌<◌, true, ◌&&◌, ◌||◌, length, get_or, replicate, eqb};
ghost use Rattle.bits.specs.Bits.{is_set};
ghost use Rattle.rocks.specs.declared.rocks.Limits.{Limits};
ghost use Rattle.rocks.specs.RockArrays.{other_at};
ghost use Rattle.rock_graph.specs.Neighbours.{Incident, Neighbours};

use rocks::Limits;

// The other ends of the rocks of a set, which are at bench v.
fn others(low: &[usize], high: &[usize], set: usize, v: usize) -> usize
    ensures { (r : ℕ) → r < 64 → is_set 64 set r ≡ true → other_at low.now high.now r v < 64
        → is_set 64 result (other_at low.now high.now r v) ≡ true }
{
    let mut found = 0;
    let mut left = set;
    while 0 < left {
        let r = sets::lowest(left);
        found = sets::with(found, rocks::other(low, high, r, v));
        left = sets::after(left, r);
    }
    found
}

// Entry v becomes the set of the other ends of the rocks at bench v.
pub fn fill_neighbours(low: &[usize], high: &[usize], incident: &[usize], neighbours: &mut [usize])
    ensures { (n : Limits) → Incident n low.now high.now incident.now
        → length neighbours.old ≡ 64
        → Neighbours n low.now high.now neighbours.new }
{
    for v in 0..64 {
        let ends = others(low, high, arrays::at(incident, v), v);
        arrays::put(neighbours, v, ends);
    }
}

// Entry v gets r.
fn add_rock(incident: &mut [usize], v: usize, r: usize)
    ensures { (w u : ℕ) → w < length incident.old → u < 64
        → is_set 64 (get_or incident.new w 0) u
        ≡ (is_set 64 (get_or incident.old w 0) u || (eqb w v && eqb u r)) }
{
    arrays::put(incident, v, sets::with(arrays::at(incident, v), r));
}

// Entry v becomes the set of the rocks at bench v.
pub fn fill_incident(n: Limits, low: &[usize], high: &[usize], incident: &mut [usize])
    ensures { incident.old ≡ replicate 64 0
        → Incident n low.now high.now incident.new }
{
    for r in 0..n.rocks {
        add_rock(incident, arrays::at(low, r), r);
        add_rock(incident, arrays::at(high, r), r);
    }
}
