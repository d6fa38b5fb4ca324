// Loops over sets: the numbers of a set, the lowest first, and sets that are collected.
ghost use Rattle.std.specs.Prelude.{◌≡◌, ℕ, ◌<◌, true, not, ◌&&◌, ◌||◌, eqb, ltb, get_or};
ghost use Rattle.sums.specs.Search.{any};
ghost use Rattle.bits.specs.Bits.{is_set};

use crate::sets;

// The benches that some entry of the set has; of those that are not in `full` only some.
pub fn reach_of(table: &[usize], benches: usize, full: usize) -> usize
    ensures { (v : ℕ) → v < 64 → is_set 64 full v ≡ true
        → is_set 64 result v ≡ any 64 (λ u. is_set 64 benches u && is_set 64 (get_or table.now u 0) v) }
{
    let mut reach = 0;
    let mut left = benches;
    while 0 < left {
        if sets::less(full, reach) == 0 {
            return reach;
        }
        let u = sets::lowest(left);
        reach = reach | arrays::at(table, u);
        left = sets::after(left, u);
    }
    reach
}

// The entries that are no empty sets.
pub fn some(t: &[usize]) -> usize
    ensures { (v : ℕ) → v < 64 → is_set 64 result v ≡ not (eqb (get_or t.now v 0) 0) }
{
    let mut found = 0;
    for v in 0..64 {
        found = add(found, v, arrays::at(t, v) != 0);
    }
    found
}

// The set with v, where v counts.
pub fn add(set: usize, v: usize, counts: bool) -> usize
    ensures { (u : ℕ) → u < 64 → is_set 64 result u ≡ (is_set 64 set u || (counts && eqb u v)) }
{
    if counts { sets::with(set, v) } else { set }
}

// Every bench, as a set.
pub fn everywhere(benches: usize) -> usize
    ensures { (v : ℕ) → v < 64 → is_set 64 result v ≡ ltb v benches }
{
    let mut all = 0;
    for v in 0..benches {
        all = sets::with(all, v);
    }
    all
}
