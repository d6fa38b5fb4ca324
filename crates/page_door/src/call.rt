// The check of a page of sets, from bytes to bytes.
ghost use Rattle.tables.specs.Tables.{numbers_of, room_of};
ghost use Rattle.page_promise.specs.PageDoor.{door_page, PageCalled};
ghost use Rattle.page_promise.specs.PageDoorClaim.{PageDoorClaim};

use answers::PageAnswer;

// Checks a page of sets: the answer's word, and its number.
pub fn check_page(sheet: &[u8], page: &[u8], answer: &mut [u8]) -> u64
    ensures called { PageCalled
        (door_page sheet.now (numbers_of page.now) (room_of answer.old)) result
        answer.old answer.new }
    ensures claim { PageDoorClaim sheet.now page.now answer.old result
        answer.new }
{
    if answer.len() < 8 {
        return tables::fault_word(list_door::short_fault(sheet));
    }
    // A page of 65 sets is as wrong as any longer one.
    let mut sets = [0u64; 65];
    let n = entries::load(page, &mut sets);
    let (word, number) = match page_check::check_page(sheet, &sets[..n]) {
        PageAnswer::Passed => (tables::PASSED, tables::NOTHING),
        PageAnswer::Long(l) => (tables::LONG, l.job),
        PageAnswer::NotPassed(set) => (tables::NOT_PASSED, set),
        PageAnswer::Fault(f) => return tables::fault_word(f),
    };
    tables::put(answer, 0, number);
    word
}
