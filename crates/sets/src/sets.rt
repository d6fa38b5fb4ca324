// Sets of numbers below 64, benches or rocks: number u is the bit of weight 2^(63 - u).
ghost use Rattle.std.specs.Prelude.{◌≡◌, ℕ, ◌<◌, not, ◌&&◌, ◌||◌, eqb, ltb};
ghost use Rattle.bits.specs.Bits.{is_set};
ghost use Rattle.sets.specs.Sets.{lowest_of, choices_of, highest_of};

// The numbers that both sets have.
pub fn common(a: usize, b: usize) -> usize
    ensures { (u : ℕ) → is_set 64 result u ≡ (is_set 64 a u && is_set 64 b u) }
{
    a & b
}

// The numbers that one of the sets has.
pub fn either(a: usize, b: usize) -> usize
    ensures { (u : ℕ) → is_set 64 result u ≡ (is_set 64 a u || is_set 64 b u) }
{
    a | b
}

// The numbers of the first set that the second lacks.
pub fn less(a: usize, b: usize) -> usize
    ensures { (u : ℕ) → is_set 64 result u ≡ (is_set 64 a u && not (is_set 64 b u)) }
{
    a & !b
}

// The lowest number of a set, and 64 of an empty one.
pub fn lowest(set: usize) -> usize
    ensures { result ≡ lowest_of set }
{
    set.leading_zeros() as usize
}

// The set without v, which is its lowest number.
pub fn after(set: usize, v: usize) -> usize
    ensures { (v ≡ lowest_of set → (u : ℕ) → u < 64 → is_set 64 result u ≡ (is_set 64 set u && not (eqb u v)))
        × (v ≡ lowest_of set → v < 64 → result < set) }
{
    if 63 < v {
        return set;
    }
    set % (1 << (63 - v))
}

// The numbers of the set that are higher than v.
pub fn above(set: usize, v: usize) -> usize
    ensures { (u : ℕ) → u < 64 → is_set 64 result u ≡ (is_set 64 set u && ltb v u) }
{
    if 63 < v {
        return 0;
    }
    set % (1 << (63 - v))
}

// Whether the set `mask` has number v.
pub fn has(mask: usize, v: usize) -> bool
    ensures { result ≡ is_set 64 mask v }
{
    if 63 < v {
        return false;
    }
    (mask >> (63 - v)) % 2 == 1
}

// The set `mask` with number v, where v is below 64.
pub fn with(mask: usize, v: usize) -> usize
    ensures { (u : ℕ) → u < 64 → is_set 64 result u ≡ (is_set 64 mask u || eqb u v) }
{
    if 63 < v {
        return mask;
    }
    mask | (1 << (63 - v))
}

// How many numbers a set has.
pub fn choices(allowed: usize) -> usize
    ensures { result ≡ choices_of allowed }
{
    allowed.count_ones() as usize
}

// The highest number of a set that is not empty.
pub fn highest(allowed: usize) -> usize
    ensures { result ≡ highest_of allowed }
{
    63usize.saturating_sub(allowed.trailing_zeros() as usize)
}
