// The components of the rocks, and their balances.
ghost use Rattle.std.specs.Prelude.{ℕ, ◌+◌, ◌≤◌, ◌<◌, ◌≡◌, cond, get_or, length};
ghost use Rattle.bits.specs.Bits.{is_set};
ghost use Rattle.day.specs.Day.{Day};
ghost use Rattle.algorithm.specs.Start.{component as component_of};
ghost use Rattle.rocks.specs.declared.balancing.Balance.TheVariants.{Unknown};
ghost use Rattle.rocks.specs.RockArrays.{first};
ghost use Rattle.rocks.specs.SpreadArrays.{is_crowded, Shows};
ghost use Rattle.rocks.specs.DayArrays.{DayRocks, balance_in, BalancesTo};

use crate::balancing::{Balance, Standing};
use crate::rocks::Limits;
use crate::spreading;
use arrays::Entry;

// component d v, as a set.
pub fn component(n: Limits, low: &[usize], high: &[usize], v: usize) -> usize
    ensures { (d : Day) → DayRocks d n low.now high.now → v < d.benches
        → Shows d.benches (component_of d v) result }
{
    let neutral = [0usize; 512];
    spreading::spread(n, low, high, &neutral, sets::with(0, v))
}

// The entries of the benches in the set become x.
fn put_where<T: Entry>(set: usize, x: T, to: &mut [T])
    ensures { (v : ℕ) → v < length to.old
        → get_or to.new v T.blank ≡ cond (is_set 64 set v) x (get_or to.old v T.blank) }
{
    let mut left = set;
    while 0 < left {
        let v = sets::lowest(left);
        arrays::put(to, v, x);
        left = sets::after(left, v);
    }
}

// Where entry v is not known yet, the benches of the component of v get its balance.
fn balance_from<S: Standing>(
    n: Limits,
    low: &[usize],
    high: &[usize],
    neutral: &[usize],
    balance: &mut [S],
    v: usize,
)
    ensures { (d : Day) → DayRocks d n low.now high.now
        → ((i : ℕ) → get_or neutral.now i 0 ≡ 0) → v < d.benches
        → BalancesTo S.entry S.blank d v balance.old → BalancesTo S.entry S.blank d (v + 1) balance.new }
{
    if arrays::at(balance, v).balance() != Balance::Unknown {
        return;
    }
    let set = spreading::spread(n, low, high, neutral, sets::with(0, v));
    let b = spreading::set_balance(n, low, neutral, set);
    put_where(set, S::entry(b), balance);
}

// Entry v: what stands for the balance of the component of v. Every entry is unknown before.
pub fn balances<S: Standing>(n: Limits, low: &[usize], high: &[usize], balance: &mut [S])
    ensures { (d : Day) → DayRocks d n low.now high.now
        → d.benches ≤ length balance.old
        → ((v : ℕ) → v < d.benches → get_or balance.old v S.blank ≡ S.entry Unknown) → (v : ℕ) → v < d.benches
        → get_or balance.new v S.blank ≡ S.entry (balance_in d v) }
{
    let neutral = [0usize; 512];
    for v in 0..n.benches {
        balance_from(n, low, high, &neutral, balance, v);
    }
}

// The lowest bench with a crowded component, if there is one.
pub fn crowded_bench<S: Standing>(benches: usize, balance: &[S]) -> Option<usize>
    ensures { result ≡ first benches (λ v. is_crowded (S.balance (get_or balance.now v S.blank))) }
{
    (0..benches).find(|&v| arrays::at(balance, v).balance() == Balance::Crowded)
}
