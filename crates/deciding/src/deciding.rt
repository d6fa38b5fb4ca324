// Deciding a day: a long job, a crowded component, or the run. Nothing is written.
ghost use Rattle.std.specs.Prelude.{◌≡◌, ◌<◌, false, ltb};
ghost use Rattle.sums.specs.Members.{members};
ghost use Rattle.day.specs.Day.{Day, long_job};
ghost use Rattle.answers.specs.Answers.{set_of};
ghost use Rattle.algorithm.specs.Start.{component as component_of};
ghost use Rattle.rocks.specs.DayArrays.{DayRocks};
ghost use Rattle.run.specs.Held.{Sparse};
ghost use Rattle.decisions.specs.Decision.{Lent, Decides};
ghost use Rattle.decisions.specs.declared.decision.Decision.TheVariants.{None};

use answers::{LongAnswer, NoneAnswer};
use decisions::{Decided, Decision};
use fields::Head;
use rocks::{Balance, Limits};

// None with the component of bench v, and no move.
fn crowded(n: Limits, low: &[usize], high: &[usize], v: usize) -> Decision
    ensures { (d : Day) → DayRocks d n low.now high.now → v < d.benches
        → result ≡ None (record { set = set_of (members d.benches (component_of d v)); moves = 0 }) }
{
    let set = rocks::component(n, low, high, v);
    Decision::None(NoneAnswer {
        set: set as u64,
        moves: 0,
    })
}

// The run of a day without a long job or a crowded component: weights and pebbles first.
fn decide_sparse(
    h: Head,
    n: Limits,
    rock: [bool; 512],
    booked: [usize; 64],
    minutes: &[usize],
    allowed: &[usize],
    job: &[usize],
    low: &[usize],
    high: &[usize],
    balance: &[Balance],
) -> Decided
    ensures { (d : Day) → Lent d h n.jobs minutes.now allowed.now booked
        → Sparse d n job.now low.now high.now balance.now rock
        → Decides d result }
{
    let q = h.q as usize;
    let mut burden = [0usize; 64];
    start::weigh(n.benches, q, &booked, &mut burden);
    let mut amount = [0usize; 512];
    start::weigh(n.jobs, q, minutes, &mut amount);
    let mut pebble = [false; 512];
    start::mark_pebbles(
        n.jobs,
        h.p as usize,
        q,
        h.target as usize,
        minutes,
        allowed,
        &mut pebble,
    );
    decisions::decide_run(
        n, rock, burden, &pebble, allowed, &amount, job, low, high, balance,
    )
}

// The decision of a day without a long job: a crowded component, or the run.
fn decide_short(
    h: Head,
    jobs: usize,
    minutes: &[usize],
    allowed: &[usize],
    booked: [usize; 64],
) -> Decided
    ensures { (d : Day) → Lent d h jobs minutes.now allowed.now booked
        → ltb (long_job d) d.jobs ≡ false → Decides d result }
{
    let p = h.p as usize;
    let q = h.q as usize;
    let target = h.target as usize;
    let mut rock = [false; 512];
    start::mark_rocks(jobs, p, q, target, minutes, allowed, &mut rock);
    let mut job = [0usize; 512];
    let mut low = [0usize; 512];
    let mut high = [0usize; 512];
    let rocks = start::gather(jobs, &rock, allowed, &mut job, &mut low, &mut high);
    let bare = start::limits(h.benches as usize, jobs, p, q, target);
    let n = Limits { rocks, ..bare };
    let mut balance = [Balance::Unknown; 64];
    rocks::balances(n, &low, &high, &mut balance);
    if let Some(v) = rocks::crowded_bench(n.benches, &balance) {
        return decisions::without_places(crowded(n, &low, &high, v));
    }
    decide_sparse(
        h, n, rock, booked, minutes, allowed, &job, &low, &high, &balance,
    )
}

// The decision of a day, with the target of the head, the jobs' minutes and allowed benches, and the booked minutes.
pub fn decide(
    h: Head,
    jobs: usize,
    minutes: &[usize],
    allowed: &[usize],
    booked: [usize; 64],
) -> Decided
    ensures { (d : Day) → Lent d h jobs minutes.now allowed.now booked → Decides d result }
{
    if let Some(job) = start::long_job(jobs, h.target as usize, minutes) {
        return decisions::without_places(Decision::Long(LongAnswer { job: job as u64 }));
    }
    decide_short(h, jobs, minutes, allowed, booked)
}
