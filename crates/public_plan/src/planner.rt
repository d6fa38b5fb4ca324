// Planning a sheet, as the demand asks.
ghost use Rattle.std.specs.Prelude.{length};
ghost use Rattle.answers.specs.Answers.{Answered};
ghost use Rattle.algorithm.specs.Answer.{answer_for};
ghost use Rattle.blocking.specs.Claim.{PlannerClaim};

use answers::Filled;

// The answer to a sheet, and how many entries of both tables were written: they are written for a plan only.
pub fn plan(s: &[u8], places: &mut [u64], loads: &mut [u64]) -> Filled
    ensures equation { Answered
        (answer_for s.now (length places.old) (length loads.old)) result
        places.old loads.old places.new loads.new }
    ensures demand { PlannerClaim s.now places.old loads.old result.answer
        places.new loads.new }
{
    planning::plan(s, places, loads)
}
