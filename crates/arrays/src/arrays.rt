// Arrays read and written at any index. None of these functions asks anything of its caller.
ghost use Rattle.std.specs.Prelude.{◌≡◌, false, cond, get_or, set, length, replicate};
ghost use Rattle.sums.specs.Sum.{count};
ghost use Rattle.arrays.specs.Arrays.{filled};

use crate::entry::{Entry, Number};

// Entry i, and past the end the blank of its type.
pub fn at<T: Entry>(t: &[T], i: usize) -> T
    ensures { result ≡ get_or t.now i T.blank }
{
    if i < t.len() { t[i] } else { T::blank() }
}

// Entry i becomes v.
pub fn put<T: Entry>(t: &mut [T], i: usize, v: T)
    ensures { t.new ≡ set t.old i v }
{
    if i < t.len() {
        t[i] = v;
    }
}

// x where entry v is marked, and else y.
pub fn where_marked(set: &[bool], v: usize, x: usize, y: usize) -> usize
    ensures { result ≡ cond (get_or set.now v false) x y }
{
    if at(set, v) { x } else { y }
}

// Every entry becomes v.
pub fn fill(t: &mut [usize], v: usize)
    ensures { t.new ≡ replicate (length t.old) v }
{
    for i in 0..t.len() {
        put(t, i, v);
    }
}

// The first n entries of one table go to the other; what the first table lacks is blank.
pub fn to_numbers<T: Number>(n: usize, from: &[T], to: &mut [usize])
    ensures { to.new ≡ filled n (λ i. T.number (get_or from.now i T.blank)) to.old }
{
    for i in 0..n.min(to.len()) {
        put(to, i, at(from, i).number());
    }
}

// The first n entries of a table of numbers go to the other.
pub fn from_numbers<T: Number>(n: usize, from: &[usize], to: &mut [T])
    ensures { to.new ≡ filled n (λ i. T.of (get_or from.now i 0)) to.old }
{
    let end = n.min(to.len());
    for i in 0..end {
        put(to, i, T::of(at(from, i)));
    }
}

// How many of the first n entries hold.
pub fn count(n: usize, t: &[bool]) -> usize
    ensures { result ≡ count n (λ i. get_or t.now i false) }
{
    let mut k = 0;
    for i in 0..n {
        if at(t, i) {
            k += 1;
        }
    }
    k
}
