// Checking a set of benches, for C.
ghost use Rattle.tables.specs.Tables.{room_of};
ghost use Rattle.set_promise.specs.SetDoor.{door_set, SetCalled};
ghost use Rattle.set_promise.specs.SetDoorClaim.{SetDoorClaim};

// Checks a set of benches: the answer's word, and its number.
#[unsafe(no_mangle)]
pub extern "C" fn yinqocha_check_set(sheet: &[u8], set: u64, answer: &mut [u8]) -> u64
    ensures called { SetCalled (door_set sheet.now set (room_of answer.old)) result
        answer.old answer.new }
    ensures claim { SetDoorClaim sheet.now set answer.old result answer.new }
{
    set_door::check_set(sheet, set, answer)
}
