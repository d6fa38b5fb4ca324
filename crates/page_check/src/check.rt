// The check of a page of sets of benches: bench b is the bit of weight 2^(63 - b).
ghost use Rattle.std.specs.Prelude.{◌≡◌, ℕ, false, List};
ghost use Rattle.bits.specs.Bits.{is_set};
ghost use Rattle.fields.specs.Contents.{Contents};
ghost use Rattle.frame.specs.Reading.{read_sheet, accepted, sheet_of};
ghost use Rattle.day.specs.Day.{Day, day_of};
ghost use Rattle.start.specs.StartArrays.{Fields};
ghost use Rattle.placements.specs.LeastWeight.{blocks};
ghost use Rattle.weighing.specs.Weights.{Weighs};
ghost use Rattle.page_faults.specs.PageFaults.{unfit};
ghost use Rattle.page_check.specs.PageCheck.{NoneUnfit, open_set, first_answer, page_answer, check_page};
ghost use Rattle.page_check.specs.PageClaim.{PageClaim};

use answers::{LongAnswer, PageAnswer};
use frame::Sheet;
use placing::Bay;

// Whether a set, which has a bench and none but the day's, blocks the day.
fn set_blocks(
    bay: Bay,
    set: usize,
    jobs: usize,
    minutes: &[usize],
    allowed: &[usize],
    booked: &[usize],
) -> bool
    ensures { (d : Day)
        → Weighs d bay jobs minutes.now allowed.now booked.now
        → unfit d.benches set ≡ false → result ≡ blocks d (is_set 64 set) }
{
    weighing::blocks(Bay { set, ..bay }, jobs, minutes, allowed, booked)
}

// The first set of the page that does not block the day, if there is one.
fn first_open(
    bay: Bay,
    jobs: usize,
    minutes: &[usize],
    allowed: &[usize],
    booked: &[usize],
    page: &[u64],
) -> Option<usize>
    ensures { (d : Day)
        → Weighs d bay jobs minutes.now allowed.now booked.now
        → NoneUnfit d page.now → result ≡ open_set d page.now }
{
    for (i, set) in page.iter().enumerate() {
        if !set_blocks(bay, *set as usize, jobs, minutes, allowed, booked) {
            return Some(i);
        }
    }
    None
}

// What is answered before a set is judged: number 17 or 18, or long. A page on which no set is judged has passed.
fn first_answer(
    benches: usize,
    jobs: usize,
    target: usize,
    minutes: &[usize],
    page: &[u64],
) -> PageAnswer
    ensures { (d : Day) → (allowed : List ℕ) → Fields d jobs minutes.now allowed
        → benches ≡ d.benches → target ≡ d.target → result ≡ first_answer d page.now }
{
    if let Err(f) = page_faults::page_verdict(benches, page) {
        return PageAnswer::Fault(f);
    }
    if let Some(long) = start::long_job(jobs, target, minutes) {
        return PageAnswer::Long(LongAnswer { job: long as u64 });
    }
    PageAnswer::Passed
}

// The answer for a sheet.
fn check_sheet(s: Sheet, page: &[u64]) -> PageAnswer
    ensures { (bytes : List ℕ) → (c : Contents) → read_sheet bytes ≡ accepted c → s ≡ sheet_of c
        → result ≡ page_answer (day_of c) page.now }
{
    let h = s.head;
    let jobs = s.count;
    let benches = h.benches as usize;
    let target = h.target as usize;
    let mut minutes = [0usize; 512];
    arrays::to_numbers(jobs, &s.minutes, &mut minutes);
    let first = first_answer(benches, jobs, target, &minutes, page);
    let PageAnswer::Passed = first else {
        return first;
    };
    let mut allowed = [0usize; 512];
    arrays::to_numbers(jobs, &s.allowed, &mut allowed);
    let mut booked = [0usize; 64];
    arrays::to_numbers(benches, &s.booked, &mut booked);
    let bay = Bay {
        benches,
        p: h.p as usize,
        q: h.q as usize,
        target,
        set: 0,
    };
    match first_open(bay, jobs, &minutes, &allowed, &booked, page) {
        Some(i) => PageAnswer::NotPassed(i as u64),
        None => PageAnswer::Passed,
    }
}

// Whether each set of a page is blocking for a sheet, and no two share a bench.
pub fn check_page(s: &[u8], page: &[u64]) -> PageAnswer
    ensures equation { result ≡ check_page s.now page.now }
    ensures claim { PageClaim s.now page.now result }
{
    match reading::read(s) {
        Err(f) => PageAnswer::Fault(f),
        Ok(sheet) => check_sheet(sheet, page),
    }
}
