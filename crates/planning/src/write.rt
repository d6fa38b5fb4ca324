// The tables of a plan.
ghost use Rattle.std.specs.Prelude.{ℕ, ◌≤◌, List, length};
ghost use Rattle.day.specs.Day.{Day};
ghost use Rattle.algorithm.specs.Answer.{plan_shown};
ghost use Rattle.planning.specs.Places.{Places, PlanWritten};

use answers::PlanAnswer;

// The plan with these places: both tables, and its numbers.
pub fn write_plan(
    jobs: usize,
    benches: usize,
    moves: u64,
    minutes: &[usize],
    booked: [usize; 64],
    place: &[u8],
    places: &mut [u64],
    loads: &mut [u64],
) -> PlanAnswer
    ensures { (d : Day) → (ps : List ℕ)
        → Places d jobs benches minutes.now booked place.now ps
        → d.jobs ≤ length places.old → d.benches ≤ length loads.old
        → PlanWritten (plan_shown d ps moves) result
        places.old loads.old places.new loads.new }
{
    let mut bench = [0usize; 512];
    arrays::to_numbers(jobs, place, &mut bench);
    let mut load = booked;
    let sum = loads::sum_benches(jobs, benches, minutes, &bench, &mut load);
    arrays::from_numbers(jobs, &bench, places);
    arrays::from_numbers(benches, &load, loads);
    PlanAnswer {
        largest: sum.largest as u64,
        moves,
        fullest: sum.fullest as u64,
    }
}
