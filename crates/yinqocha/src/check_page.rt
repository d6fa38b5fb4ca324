// Checking a page of sets, for C.
ghost use Rattle.tables.specs.Tables.{numbers_of, room_of};
ghost use Rattle.page_promise.specs.PageDoor.{door_page, PageCalled};
ghost use Rattle.page_promise.specs.PageDoorClaim.{PageDoorClaim};

// Checks a page of sets: the answer's word, and its number.
#[unsafe(no_mangle)]
pub extern "C" fn yinqocha_check_page(sheet: &[u8], page: &[u8], answer: &mut [u8]) -> u64
    ensures called { PageCalled
        (door_page sheet.now (numbers_of page.now) (room_of answer.old)) result
        answer.old answer.new }
    ensures claim { PageDoorClaim sheet.now page.now answer.old result
        answer.new }
{
    page_door::check_page(sheet, page, answer)
}
