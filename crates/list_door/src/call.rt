// The check of a list of places, from bytes to bytes.
ghost use Rattle.std.specs.Prelude.{◌≡◌};
ghost use Rattle.frame.specs.Reading.{read_sheet};
ghost use Rattle.tables.specs.Tables.{numbers_of, room_of};
ghost use Rattle.list_promise.specs.ListDoor.{short_fault, door_list, ListCalled};
ghost use Rattle.list_promise.specs.ListDoorClaim.{ListDoorClaim};

use answers::ListAnswer;
use frame::Fault;

// The fault where there is no room for the answer: the sheet's own, or else 13.
pub fn short_fault(sheet: &[u8]) -> Fault
    ensures { result ≡ short_fault (read_sheet sheet.now) }
{
    match reading::read(sheet) {
        Ok(_) => Fault::Table(0),
        Err(f) => f,
    }
}

// Checks a list of places: the answer's word, and its two numbers.
pub fn check_plan(sheet: &[u8], places: &[u8], answer: &mut [u8]) -> u64
    ensures called { ListCalled
        (door_list sheet.now (numbers_of places.now) (room_of answer.old)) result
        answer.old answer.new }
    ensures claim { ListDoorClaim sheet.now places.now answer.old result
        answer.new }
{
    if answer.len() < 16 {
        return tables::fault_word(short_fault(sheet));
    }
    // A list of 513 places is as wrong as any longer one.
    let mut list = [0u64; 513];
    let n = entries::load(places, &mut list);
    match list_check::check_list(sheet, &list[..n]) {
        ListAnswer::Passed(p) => {
            tables::put_front(&[p.largest, p.fullest], answer);
            tables::PASSED
        }
        ListAnswer::NotPassed => {
            tables::put_front(&[tables::NOTHING; 2], answer);
            tables::NOT_PASSED
        }
        ListAnswer::Fault(f) => tables::fault_word(f),
    }
}
