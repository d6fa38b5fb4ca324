// The best target of a sheet, for C.
ghost use Rattle.tables.specs.Tables.{room_of};
ghost use Rattle.best_promise.specs.BestDoor.{door_best, BestCalled};
ghost use Rattle.best_promise.specs.BestDoorClaim.{BestDoorClaim};

// Finds the best target of a sheet: the answer's word, its five numbers, each job's bench and each bench's load.
#[unsafe(no_mangle)]
pub extern "C" fn yinqocha_best(
    sheet: &[u8],
    places: &mut [u8],
    loads: &mut [u8],
    answer: &mut [u8],
) -> u64
    ensures called { BestCalled
        (door_best sheet.now
        (room_of places.old) (room_of loads.old) (room_of answer.old)) result
        places.old loads.old answer.old
        places.new loads.new answer.new }
    ensures claim { BestDoorClaim sheet.now
        places.old loads.old answer.old result
        places.new loads.new answer.new }
{
    best_door::best(sheet, places, loads, answer)
}
