// The rocks that are left, as arrays: entry r is the rock with the r-th lowest job.
ghost use Rattle.std.specs.Prelude.{◌≡◌};
ghost use Rattle.rocks.specs.RockArrays.{touches_at, other_at, within_at};

#[derive(Clone, Copy)]
pub struct Limits {
    pub benches: usize,
    pub jobs: usize,
    pub rocks: usize,
    pub bound: usize,
    pub small: usize,
    pub limit: usize,
}

// Whether v is an end of rock r.
pub fn touches(low: &[usize], high: &[usize], r: usize, v: usize) -> bool
    ensures { result ≡ touches_at low.now high.now r v }
{
    v == arrays::at(low, r) || v == arrays::at(high, r)
}

// The other end.
pub fn other(low: &[usize], high: &[usize], r: usize, v: usize) -> usize
    ensures { result ≡ other_at low.now high.now r v }
{
    let lo = arrays::at(low, r);
    if v == lo { arrays::at(high, r) } else { lo }
}

// within b xs v: the round of v in the list is one of the exploration.
pub fn within(benches: usize, rounds: &[usize], v: usize) -> bool
    ensures { result ≡ within_at benches rounds.now v }
{
    arrays::at(rounds, v) <= benches
}
