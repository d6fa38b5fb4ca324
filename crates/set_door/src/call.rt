// The check of a set of benches, from bytes to bytes.
ghost use Rattle.tables.specs.Tables.{room_of};
ghost use Rattle.set_promise.specs.SetDoor.{door_set, SetCalled};
ghost use Rattle.set_promise.specs.SetDoorClaim.{SetDoorClaim};

use answers::SetAnswer;

// Checks a set of benches: the answer's word, and its number.
pub fn check_set(sheet: &[u8], set: u64, answer: &mut [u8]) -> u64
    ensures called { SetCalled (door_set sheet.now set (room_of answer.old)) result
        answer.old answer.new }
    ensures claim { SetDoorClaim sheet.now set answer.old result answer.new }
{
    if answer.len() < 8 {
        return tables::fault_word(list_door::short_fault(sheet));
    }
    let (word, job) = match set_check::check_set(sheet, set) {
        SetAnswer::Passed => (tables::PASSED, tables::NOTHING),
        SetAnswer::Long(l) => (tables::LONG, l.job),
        SetAnswer::NotPassed => (tables::NOT_PASSED, tables::NOTHING),
        SetAnswer::Fault(f) => return tables::fault_word(f),
    };
    tables::put(answer, 0, job);
    word
}
