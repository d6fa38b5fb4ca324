// The steps of the run, as the planner takes them, and its last exploration once more with the tables kept.
use crate::lines;
use frame::{Head, Sheet};
use placing::Bay;
use rock_graph::Graph;
use rocks::{Balance, Limits};
use run::State;
use std::io;

// The day of a sheet, in tables as wide as the run has them.
#[derive(Clone, Copy)]
pub struct Day<'a> {
    pub head: Head,
    pub jobs: usize,
    pub minutes: &'a [usize],
    pub allowed: &'a [usize],
    pub booked: &'a [usize],
}

// Of each rock its job, and its lower and its higher bench.
#[derive(Clone, Copy)]
pub struct Rocks<'a> {
    pub job: &'a [usize],
    pub low: &'a [usize],
    pub high: &'a [usize],
}

// A sheet: a long job, or the day without one.
pub fn see_sheet(rt: &impl Print, s: Sheet) -> io::Result<()> {
    let head = s.head;
    let jobs = s.count;
    let mut minutes = [0usize; 512];
    arrays::to_numbers(jobs, &s.minutes, &mut minutes);
    if let Some(long) = start::long_job(jobs, head.target as usize, &minutes) {
        return lines::line(rt, "long", &[Some(long)], 0);
    }
    let mut allowed = [0usize; 512];
    arrays::to_numbers(jobs, &s.allowed, &mut allowed);
    let mut booked = [0usize; 64];
    arrays::to_numbers(head.benches as usize, &s.booked, &mut booked);
    let d = Day {
        head,
        jobs,
        minutes: &minutes,
        allowed: &allowed,
        booked: &booked,
    };
    see_short(rt, d)
}

// A day without a long job: a crowded component, or the run.
fn see_short(rt: &impl Print, d: Day<'_>) -> io::Result<()> {
    let benches = d.head.benches as usize;
    let p = d.head.p as usize;
    let q = d.head.q as usize;
    let target = d.head.target as usize;
    let mut rock = [false; 512];
    start::mark_rocks(d.jobs, p, q, target, d.minutes, d.allowed, &mut rock);
    let mut job = [0usize; 512];
    let mut low = [0usize; 512];
    let mut high = [0usize; 512];
    let mut n = start::limits(benches, d.jobs, p, q, target);
    n.rocks = start::gather(d.jobs, &rock, d.allowed, &mut job, &mut low, &mut high);
    let fields = [Some(benches), Some(p), Some(q), Some(target), Some(d.jobs)];
    lines::line(rt, "sheet", &fields, 0)?;
    let mut balance = [Balance::Unknown; 64];
    rocks::balances(n, &low, &high, &mut balance);
    let rocks = Rocks {
        job: &job,
        low: &low,
        high: &high,
    };
    match rocks::crowded_bench(benches, &balance) {
        Some(v) => see_crowded(rt, d, n, rocks, v),
        None => see_run(rt, d, n, rocks, rock, &balance),
    }
}

// The component of bench v, with its rocks.
fn see_crowded(
    rt: &impl Print,
    d: Day<'_>,
    n: Limits,
    rocks: Rocks<'_>,
    v: usize,
) -> io::Result<()> {
    let set = rocks::component(n, rocks.low, rocks.high, v);
    lines::heavies(rt, n.rocks, d.minutes, rocks, &[0usize; 64], set)?;
    lines::line(rt, "none", &[Some(0)], set)
}

// The first state of the run, with its tables.
fn see_run(
    rt: &impl Print,
    d: Day<'_>,
    n: Limits,
    rocks: Rocks<'_>,
    rock: [bool; 512],
    balance: &[Balance],
) -> io::Result<()> {
    let p = d.head.p as usize;
    let q = d.head.q as usize;
    let target = d.head.target as usize;
    let mut own = [0usize; 64];
    start::weigh(n.benches, q, d.booked, &mut own);
    let mut amount = [0usize; 512];
    start::weigh(d.jobs, q, d.minutes, &mut amount);
    let mut pebble = [false; 512];
    start::mark_pebbles(d.jobs, p, q, target, d.minutes, d.allowed, &mut pebble);
    let mut left = rock;
    let mut place = [0u8; 512];
    let mut reach = [0usize; 64];
    let first = State::start(
        n, &pebble, d.allowed, &amount, rocks.job, rocks.low, rocks.high, balance, &mut left,
        &mut place, &mut own, &mut reach,
    );
    see_turns(
        rt, d, n, first, &amount, &pebble, &left, &mut place, &mut own, &mut reach,
    )
}

// The turns of the run from its first state.
fn see_turns(
    rt: &impl Print,
    d: Day<'_>,
    n: Limits,
    first: State,
    amount: &[usize],
    pebble: &[bool],
    left: &[bool],
    place: &mut [u8],
    own: &mut [usize],
    reach: &mut [usize],
) -> io::Result<()> {
    let mut job = [0usize; 64];
    let mut low = [0usize; 64];
    let mut high = [0usize; 64];
    let mut m = n;
    m.rocks = start::gather(d.jobs, left, d.allowed, &mut job, &mut low, &mut high);
    let mut weight = [0usize; 64];
    run::pick(m.rocks, &job, amount, &mut weight);
    let budget = arrays::times(n.benches, arrays::count(d.jobs, pebble));
    let mut dir = [0usize; 64];
    let last = turns::turns(
        first, budget, m, &low, &high, &weight, amount, pebble, d.allowed, place, own, reach,
        &mut dir,
    );
    let rocks = Rocks {
        job: &job,
        low: &low,
        high: &high,
    };
    see_last(rt, d, last, m, rocks, &weight, own, reach)?;
    lines::others(rt, d, left, pebble, place)?;
    see_answer(rt, d, last)
}

// The last exploration once more, with its tables. No move came after it, so what it reads is as it was.
fn see_last(
    rt: &impl Print,
    d: Day<'_>,
    last: State,
    n: Limits,
    rocks: Rocks<'_>,
    weight: &[usize],
    own: &[usize],
    reach: &[usize],
) -> io::Result<()> {
    let graph = Graph::new(n, rocks.low, rocks.high, weight);
    let mut dir = [0usize; 64];
    let mut load = [0usize; 64];
    let mut joined = [0usize; 64];
    let mut level = [0usize; 64];
    last.orient(
        n,
        &graph,
        own,
        reach,
        &mut dir,
        &mut load,
        &mut joined,
        &mut level,
    );
    lines::benches(rt, d, n, own, &load, &joined, &level)?;
    lines::heavies(rt, n.rocks, d.minutes, rocks, &dir, sets::everywhere(64))
}

// What the last state comes to: a plan, or none with the activated set and what the heavy jobs weigh inside it.
fn see_answer(rt: &impl Print, d: Day<'_>, last: State) -> io::Result<()> {
    if last.active == 0 {
        return lines::line(rt, "plan", &[Some(last.moves)], 0);
    }
    let bay = Bay {
        benches: d.head.benches as usize,
        p: d.head.p as usize,
        q: d.head.q as usize,
        target: d.head.target as usize,
        set: last.active,
    };
    let least = placing::least_heavy(bay, d.jobs, d.minutes, d.allowed);
    lines::line(rt, "least", &[least], 0)?;
    lines::line(rt, "none", &[Some(last.moves)], last.active)
}
