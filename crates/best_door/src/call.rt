// The best target of a sheet, with its plan, from bytes to bytes.
ghost use Rattle.std.specs.Prelude.{◌≡◌, cond, ltb, min};
ghost use Rattle.answers.specs.declared.best.BestAnswer.TheVariants.{Best};
ghost use Rattle.tables.specs.Tables.{room_of, put_fitting};
ghost use Rattle.best_promise.specs.BestDoor.{door_best, best_numbers, BestCalled};
ghost use Rattle.best_promise.specs.BestDoorClaim.{BestDoorClaim};

use answers::{BestAnswer, BestPlan};

// The five numbers of the answer, to the front of its table, as many as it has room for.
fn put_best(b: BestPlan, answer: &mut [u8])
    ensures { answer.new ≡ put_fitting (best_numbers (Best b)) answer.old }
{
    let plan = b.plan;
    let values = [b.target, plan.largest, plan.moves, plan.fullest, b.runs];
    tables::put_front(&values, answer);
}

// The room for the loads that is handed on: none without room for the answer, so that every sheet that is read is
// fault 13.
fn loads_room(loads: &[u8], answer: &[u8]) -> usize
    ensures { result ≡ cond (ltb (room_of answer.now) 5) 0 (min (room_of loads.now) 64) }
{
    if answer.len() < 40 {
        0
    } else {
        tables::room(loads.len(), 64)
    }
}

// Finds the best target of a sheet: the answer's word, its five numbers, each job's bench and each bench's load.
pub fn best(sheet: &[u8], places: &mut [u8], loads: &mut [u8], answer: &mut [u8]) -> u64
    ensures called { BestCalled
        (door_best sheet.now
        (room_of places.old) (room_of loads.old) (room_of answer.old)) result
        places.old loads.old answer.old
        places.new loads.new answer.new }
    ensures claim { BestDoorClaim sheet.now
        places.old loads.old answer.old result
        places.new loads.new answer.new }
{
    let mut p = [0u64; 512];
    let mut l = [0u64; 64];
    let np = tables::room(places.len(), 512);
    let nl = loads_room(loads, answer);
    let filled = best_target::best(sheet, &mut p[..np], &mut l[..nl]);
    let jobs = filled.places;
    let benches = filled.loads;
    tables::put_front(&p[..jobs], places);
    tables::put_front(&l[..benches], loads);
    match filled.answer {
        BestAnswer::Best(b) => {
            put_best(b, answer);
            tables::BEST
        }
        BestAnswer::Fault(f) => tables::fault_word(f),
    }
}
