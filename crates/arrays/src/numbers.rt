// Numbers that stop at the greatest. None of these functions asks anything of its caller.
ghost use Rattle.std.specs.Prelude.{◌≡◌, ◌+◌, ltb};
ghost use Rattle.arrays.specs.Arrays.{times_of, lower_of};

// Whether a + w is above the bound.
pub fn exceeds(bound: usize, a: usize, w: usize) -> bool
    ensures { result ≡ ltb bound (a + w) }
{
    if bound < w {
        return true;
    }
    bound - w < a
}

// The lower of v and u where u counts, else v.
pub fn lower(v: usize, u: usize, counts: bool) -> usize
    ensures { result ≡ lower_of counts u v }
{
    if !counts {
        return v;
    }
    if u < v { u } else { v }
}

// a × b for a below 2^20 and b below 2^30, and else 0.
pub fn times(a: usize, b: usize) -> usize
    ensures { result ≡ times_of a b }
{
    if 1048576 <= a {
        return 0;
    }
    if 1073741824 <= b {
        return 0;
    }
    a * b
}
