// The check of a set of benches: bench b is the bit of weight 2^(63 - b).
ghost use Rattle.std.specs.Prelude.{◌≡◌, ℕ, List};
ghost use Rattle.fields.specs.Contents.{Contents};
ghost use Rattle.frame.specs.Reading.{read_sheet, accepted, sheet_of};
ghost use Rattle.day.specs.Day.{Day, day_of};
ghost use Rattle.start.specs.StartArrays.{Fields};
ghost use Rattle.set_check.specs.SetCheck.{foreign_of, first_answer, set_answer, check_set};
ghost use Rattle.set_check.specs.SetClaim.{SetClaim};

use answers::{LongAnswer, SetAnswer};
use frame::{Fault, Sheet};
use placing::Bay;

// The lowest bench of the set that the head lacks, if there is one.
pub fn foreign(benches: usize, set: usize) -> Option<usize>
    ensures { result ≡ foreign_of benches set }
{
    let lacking = sets::lowest(sets::less(set, sets::everywhere(benches)));
    (lacking < 64).then_some(lacking)
}

// What is answered before the set is judged: number 17, or long. Until then it has not passed.
fn first_answer(
    benches: usize,
    jobs: usize,
    target: usize,
    minutes: &[usize],
    set: usize,
) -> SetAnswer
    ensures { (d : Day) → (allowed : List ℕ) → Fields d jobs minutes.now allowed
        → benches ≡ d.benches → target ≡ d.target → result ≡ first_answer d set }
{
    if set == 0 {
        return SetAnswer::Fault(Fault::SetBench(0));
    }
    if let Some(lacking) = foreign(benches, set) {
        return SetAnswer::Fault(Fault::SetBench(lacking));
    }
    if let Some(long) = start::long_job(jobs, target, minutes) {
        return SetAnswer::Long(LongAnswer { job: long as u64 });
    }
    SetAnswer::NotPassed
}

// The answer for a sheet.
fn check_sheet(s: Sheet, set: u64) -> SetAnswer
    ensures { (bytes : List ℕ) → (c : Contents) → read_sheet bytes ≡ accepted c → s ≡ sheet_of c
        → result ≡ set_answer (day_of c) set }
{
    let h = s.head;
    let jobs = s.count;
    let benches = h.benches as usize;
    let target = h.target as usize;
    let named = set as usize;
    let mut minutes = [0usize; 512];
    arrays::to_numbers(jobs, &s.minutes, &mut minutes);
    let first = first_answer(benches, jobs, target, &minutes, named);
    let SetAnswer::NotPassed = first else {
        return first;
    };
    let mut allowed = [0usize; 512];
    arrays::to_numbers(jobs, &s.allowed, &mut allowed);
    let mut booked = [0usize; 64];
    arrays::to_numbers(benches, &s.booked, &mut booked);
    let bay = Bay {
        benches,
        p: h.p as usize,
        q: h.q as usize,
        target,
        set: named,
    };
    if weighing::blocks(bay, jobs, &minutes, &allowed, &booked) {
        return SetAnswer::Passed;
    }
    SetAnswer::NotPassed
}

// Whether a set of benches is blocking for a sheet.
pub fn check_set(s: &[u8], set: u64) -> SetAnswer
    ensures equation { result ≡ check_set s.now set }
    ensures claim { SetClaim s.now set result }
{
    match reading::read(s) {
        Err(f) => SetAnswer::Fault(f),
        Ok(sheet) => check_sheet(sheet, set),
    }
}
