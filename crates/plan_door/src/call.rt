// Planning a sheet, for C.
ghost use Rattle.std.specs.Prelude.{◌≡◌, cond, ltb, min};
ghost use Rattle.tables.specs.Tables.{room_of};
ghost use Rattle.door.specs.DoorClaim.{DoorClaim};
ghost use Rattle.door.specs.PlanDoor.{door_answer, Called};

use answers::Answer;

// The room for the loads that is handed on: none without room for the answer, so that every sheet that is read is
// fault 13.
fn loads_room(loads: &[u8], answer: &[u8]) -> usize
    ensures { result ≡ cond (ltb (room_of answer.now) 3) 0 (min (room_of loads.now) 64) }
{
    if answer.len() < 24 {
        0
    } else {
        tables::room(loads.len(), 64)
    }
}

// Plans a sheet: the answer's word, its three numbers, and for a plan each job's bench and each bench's load.
pub fn plan(sheet: &[u8], places: &mut [u8], loads: &mut [u8], answer: &mut [u8]) -> u64
    ensures called { Called
        (door_answer sheet.now
        (room_of places.old) (room_of loads.old) (room_of answer.old)) result
        places.old loads.old answer.old
        places.new loads.new answer.new }
    ensures demand { DoorClaim sheet.now
        places.old loads.old answer.old result
        places.new loads.new answer.new }
{
    let mut p = [0u64; 512];
    let mut l = [0u64; 64];
    let np = tables::room(places.len(), 512);
    let nl = loads_room(loads, answer);
    let filled = public_plan::plan(sheet, &mut p[..np], &mut l[..nl]);
    let jobs = filled.places;
    let benches = filled.loads;
    tables::put_front(&p[..jobs], places);
    tables::put_front(&l[..benches], loads);
    match filled.answer {
        Answer::Plan(a) => {
            tables::put_three(answer, a.largest, a.moves, a.fullest);
            tables::PLAN
        }
        Answer::Long(a) => {
            tables::put_three(answer, a.job, 0, 0);
            tables::LONG
        }
        Answer::None(a) => {
            tables::put_three(answer, a.set, a.moves, 0);
            tables::NONE
        }
        Answer::Fault(f) => tables::fault_word(f),
    }
}
