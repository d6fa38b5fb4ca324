// Planning a sheet, for C.
ghost use Rattle.tables.specs.Tables.{room_of};
ghost use Rattle.door.specs.DoorClaim.{DoorClaim};
ghost use Rattle.door.specs.PlanDoor.{door_answer, Called};

// Plans a sheet: the answer's word, its three numbers, and for a plan each job's bench and each bench's load.
#[unsafe(no_mangle)]
pub extern "C" fn yinqocha_plan(
    sheet: &[u8],
    places: &mut [u8],
    loads: &mut [u8],
    answer: &mut [u8],
) -> u64
    ensures called { Called
        (door_answer sheet.now
        (room_of places.old) (room_of loads.old) (room_of answer.old)) result
        places.old loads.old answer.old
        places.new loads.new answer.new }
    ensures demand { DoorClaim sheet.now
        places.old loads.old answer.old result
        places.new loads.new answer.new }
{
    plan_door::plan(sheet, places, loads, answer)
}
