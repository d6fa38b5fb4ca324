// The classes of benches. Two lent tables have the label of each bench's class, and how much more it costs that this
// bench is the free one.
ghost use Rattle.std.specs.Prelude.{◌≡◌, ℕ, ◌≤◌, ◌<◌, true, not, cond, ◌&&◌, ◌||◌, eqb, leb, length, get_or};
ghost use Rattle.bits.specs.Bits.{is_set};
ghost use Rattle.sums.specs.Sum.{on};
ghost use Rattle.arrays.specs.Arrays.{plus_of, filled};
ghost use Rattle.placements.specs.Classes.{Heavies, Classes as Benches, placed, put_job, going};
ghost use Rattle.placing.specs.ClassArrays.{price_in, raise_of, relabel_of};
ghost use Rattle.placing.specs.ClassArrays.{Job, Listed, Modest, Shows, Tries};

// What is asked: the head's numbers, and the set.
#[derive(Clone, Copy)]
pub struct Bay {
    pub benches: usize,
    pub p: usize,
    pub q: usize,
    pub target: usize,
    pub set: usize,
}

// The benches of shut classes, and what the cheapest choice costs.
#[derive(Clone, Copy)]
pub struct Classes {
    pub shut: usize,
    pub base: usize,
}

// What a job of so many minutes would cost on bench v.
fn price(extra: &[usize], set: usize, v: usize, minutes: usize) -> usize
    ensures { result ≡ price_in extra.now set v minutes }
{
    let more = arrays::at(extra, v);
    if sets::has(set, v) {
        more.saturating_add(minutes)
    } else {
        more
    }
}

// Whether the lower end is the cheaper one of the open ends: which of them are shut, and their prices.
fn goes_low(a: bool, b: bool, low: usize, high: usize) -> bool
    ensures { result ≡ (not a && (b || leb low high)) }
{
    !a && (b || low <= high)
}

// x where c holds, and else y.
fn pick(c: bool, x: usize, y: usize) -> usize
    ensures { result ≡ cond c x y }
{
    if c { x } else { y }
}

// Whether an end is shut, or both have the same label: which of them are shut, and their labels.
fn closes(a: bool, b: bool, low: usize, high: usize) -> bool
    ensures { result ≡ ((a || b) || eqb low high) }
{
    a || b || low == high
}

// The set with every bench that has the label.
fn shut_class(benches: usize, labels: &[usize], label: usize, shut: usize) -> usize
    ensures { (v : ℕ) → v < benches → v < 64
        → is_set 64 result v ≡ (is_set 64 shut v || eqb (get_or labels.now v 0) label) }
{
    let mut all = shut;
    for v in 0..benches {
        all = sets::add(all, v, arrays::at(labels, v) == label);
    }
    all
}

// How much more a bench of this label costs in the joined class: x with the one label, y with the other.
fn raise(label: usize, low: usize, high: usize, x: usize, y: usize) -> usize
    ensures { result ≡ raise_of low high x y label }
{
    if label == low {
        x
    } else if label == high {
        y
    } else {
        0
    }
}

// Raises the extras of both classes, and gives the benches of the one label the other.
fn join_all(
    benches: usize,
    low: usize,
    high: usize,
    x: usize,
    y: usize,
    labels: &mut [usize],
    extra: &mut [usize],
)
    ensures raised { benches ≤ length labels.old → benches ≤ length extra.old
        → extra.new ≡ filled benches
        (λ v. plus_of (get_or extra.old v 0) (raise_of low high x y (get_or labels.old v 0)))
        extra.old }
    ensures labelled { benches ≤ length labels.old → benches ≤ length extra.old
        → labels.new ≡ filled benches
        (λ v. relabel_of low high (get_or labels.old v 0)) labels.old }
{
    let end = benches.min(labels.len().min(extra.len()));
    for v in 0..end {
        let label = labels[v];
        let more = raise(label, low, high, x, y);
        extra[v] = extra[v].saturating_add(more);
        labels[v] = pick(label == high, low, label);
    }
}

// Entry v becomes v.
pub fn number(labels: &mut [usize])
    ensures { labels.new ≡ filled (length labels.old) (λ v. v) labels.old }
{
    for v in 0..labels.len() {
        labels[v] = v;
    }
}

// The classes after a heavy job of so many minutes with these ends, of which one is open.
fn place(
    c: Classes,
    bay: Bay,
    low: usize,
    high: usize,
    minutes: usize,
    labels: &mut [usize],
    extra: &mut [usize],
) -> Classes
    ensures { (g : Heavies) → (s : Benches) → (i : ℕ) → Job g i bay low high minutes → Modest bay s
        → Shows s bay c labels.old extra.old
        → Shows (placed g s i) bay result labels.new extra.new }
{
    let low_shut = sets::has(c.shut, low);
    let high_shut = sets::has(c.shut, high);
    let price_low = price(extra, bay.set, low, minutes);
    let price_high = price(extra, bay.set, high, minutes);
    let to_low = goes_low(low_shut, high_shut, price_low, price_high);
    let paid = pick(to_low, price_low, price_high);
    let base = c.base.saturating_add(paid);
    let label_low = arrays::at(labels, low);
    let label_high = arrays::at(labels, high);
    if closes(low_shut, high_shut, label_low, label_high) {
        let label = pick(to_low, label_low, label_high);
        let shut = shut_class(bay.benches, labels, label, c.shut);
        return Classes { shut, base };
    }
    let by_low = price_high.saturating_sub(paid);
    let by_high = price_low.saturating_sub(paid);
    join_all(
        bay.benches,
        label_low,
        label_high,
        by_low,
        by_high,
        labels,
        extra,
    );
    Classes { shut: c.shut, base }
}

// The classes after a heavy job with these ends, and none if both are shut: then there is no placement.
fn put_heavy(
    c: Classes,
    bay: Bay,
    low: usize,
    high: usize,
    minutes: usize,
    labels: &mut [usize],
    extra: &mut [usize],
) -> Option<Classes>
    ensures { (g : Heavies) → (s : Benches) → (i : ℕ) → Job g i bay low high minutes → Modest bay s
        → g.heavy i ≡ true → Shows s bay c labels.old extra.old
        → Tries (put_job g (going s) i) bay result labels.new extra.new }
{
    if sets::has(c.shut, low) && sets::has(c.shut, high) {
        return None;
    }
    Some(place(c, bay, low, high, minutes, labels, extra))
}

// The classes after a job of so many minutes that allows these benches, and none where there is no placement.
pub fn put_job(
    c: Classes,
    bay: Bay,
    minutes: usize,
    allowed: usize,
    labels: &mut [usize],
    extra: &mut [usize],
) -> Option<Classes>
    ensures { (g : Heavies) → (s : Benches) → (i : ℕ) → Listed g i bay minutes allowed → Modest bay s
        → Shows s bay c labels.old extra.old
        → Tries (put_job g (going s) i) bay result labels.new extra.new }
{
    if start::heavy(bay.p, bay.q, bay.target, minutes) {
        return put_heavy(
            c,
            bay,
            sets::lowest(allowed),
            sets::highest(allowed),
            minutes,
            labels,
            extra,
        );
    }
    Some(c)
}
