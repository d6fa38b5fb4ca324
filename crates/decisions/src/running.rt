// The run of a day, and the decision at its last state. Nothing is written.
ghost use Rattle.std.specs.Prelude.{◌≡◌, ℕ, ◌<◌, Bool, false, List, map, ltb, get_or, replicate};
ghost use Rattle.sums.specs.Sum.{count};
ghost use Rattle.day.specs.Day.{Day, long_job};
ghost use Rattle.algorithm.specs.Start.{crowded_bench};
ghost use Rattle.run.specs.Held.{Begins, Ready, Last, is_left, left_job};
ghost use Rattle.decisions.specs.Decision.{Decides};

use crate::decision::{Decided, Decision, PlanMoves};
use answers::NoneAnswer;
use rocks::{Limits, Standing};
use run::State;

// A decision that is no plan.
pub fn without_places(decision: Decision) -> Decided
    ensures { result ≡ record { decision = decision; places = replicate 512 0 } }
{
    let places = [0u8; 512];
    Decided { decision, places }
}

// The decision at the last state of the run: none with the activated benches, or a plan with the places that the other
// jobs have, and the rocks settled from their directions.
fn finish(
    last: State,
    place: [u8; 512],
    aims: [usize; 64],
    n: Limits,
    job: &[usize],
    low: &[usize],
    high: &[usize],
) -> Decided
    ensures { (d : Day) → (weights : List ℕ) → (amount : List ℕ) → (pebbles : List Bool) → (allowed : List ℕ)
        → Ready d n low.now high.now weights amount pebbles allowed
        → ((r : ℕ) → r < count d.jobs (is_left d) → get_or job.now r 0 ≡ left_job d r)
        → Last d last place aims → ltb (long_job d) d.jobs ≡ false → ltb (crowded_bench d) d.benches ≡ false
        → Decides d result }
{
    if last.active != 0 {
        return without_places(Decision::None(NoneAnswer {
            set: last.active as u64,
            moves: last.moves as u64,
        }));
    }
    let mut dir = aims;
    settle::settle(n, low, high, &mut dir);
    let mut places = place;
    run::place_rocks(n.rocks, job, &dir, &mut places);
    Decided {
        decision: Decision::Plan(PlanMoves {
            moves: last.moves as u64,
        }),
        places,
    }
}

// The run of a day without a long job or a crowded component.
pub fn decide_run<S: Standing>(
    n: Limits,
    rock: [bool; 512],
    burden: [usize; 64],
    pebble: &[bool],
    allowed: &[usize],
    amount: &[usize],
    job: &[usize],
    low: &[usize],
    high: &[usize],
    balance: &[S],
) -> Decided
    ensures { (d : Day) → (minutes : List ℕ)
        → Begins d n minutes allowed.now amount.now job.now low.now
        high.now (map S.balance balance.now) burden rock pebble.now
        → Decides d result }
{
    let mut left = rock;
    let mut place = [0u8; 512];
    let mut own = burden;
    let mut reach = [0usize; 64];
    let first = State::start(
        n, pebble, allowed, amount, job, low, high, balance, &mut left, &mut place, &mut own,
        &mut reach,
    );
    let mut mine = [0usize; 64];
    let mut lows = [0usize; 64];
    let mut highs = [0usize; 64];
    let rocks = start::gather(n.jobs, &left, allowed, &mut mine, &mut lows, &mut highs);
    let mut weight = [0usize; 64];
    run::pick(rocks, &mine, amount, &mut weight);
    let m = Limits { rocks, ..n };
    let budget = arrays::times(n.benches, arrays::count(n.jobs, pebble));
    let mut dir = [0usize; 64];
    let last = turns::turns(
        first, budget, m, &lows, &highs, &weight, amount, pebble, allowed, &mut place, &mut own,
        &mut reach, &mut dir,
    );
    finish(last, place, dir, m, &mine, &lows, &highs)
}
