// Checking a list of places, for C.
ghost use Rattle.tables.specs.Tables.{numbers_of, room_of};
ghost use Rattle.list_promise.specs.ListDoor.{door_list, ListCalled};
ghost use Rattle.list_promise.specs.ListDoorClaim.{ListDoorClaim};

// Checks a list of places: the answer's word, and its two numbers.
#[unsafe(no_mangle)]
pub extern "C" fn yinqocha_check_plan(sheet: &[u8], places: &[u8], answer: &mut [u8]) -> u64
    ensures called { ListCalled
        (door_list sheet.now (numbers_of places.now) (room_of answer.old)) result
        answer.old answer.new }
    ensures claim { ListDoorClaim sheet.now places.now answer.old result
        answer.new }
{
    list_door::check_plan(sheet, places, answer)
}
