// Planning a sheet: it is read, a day is decided, and the tables of a plan are written.
ghost use Rattle.std.specs.Prelude.{◌≡◌, ℕ, List, length};
ghost use Rattle.fields.specs.Contents.{Contents};
ghost use Rattle.frame.specs.Reading.{read_sheet, accepted, sheet_of};
ghost use Rattle.answers.specs.Answers.{Answered};
ghost use Rattle.algorithm.specs.Answer.{answer_for};

use crate::write;
use answers::{Answer, Filled};
use deciding::Decision;
use frame::{Fault, Sheet};

// An answer that leaves both tables as they are.
fn unwritten(answer: Answer) -> Filled
    ensures { result ≡ record { answer = answer; places = 0; loads = 0 } }
{
    Filled {
        answer,
        places: 0,
        loads: 0,
    }
}

// Fault 13, and then the answer.
fn plan_sheet(s: Sheet, places: &mut [u64], loads: &mut [u64]) -> Filled
    ensures { (bytes : List ℕ) → (c : Contents) → read_sheet bytes ≡ accepted c → s ≡ sheet_of c
        → Answered (answer_for bytes (length places.old) (length loads.old)) result
        places.old loads.old places.new loads.new }
{
    let h = s.head;
    let jobs = s.count;
    let benches = h.benches as usize;
    if places.len() < jobs {
        return unwritten(Answer::Fault(Fault::Table(0)));
    }
    if loads.len() < benches {
        return unwritten(Answer::Fault(Fault::Table(0)));
    }
    let mut minutes = [0usize; 512];
    let mut allowed = [0usize; 512];
    arrays::to_numbers(jobs, &s.minutes, &mut minutes);
    arrays::to_numbers(jobs, &s.allowed, &mut allowed);
    let mut booked = [0usize; 64];
    arrays::to_numbers(benches, &s.booked, &mut booked);
    let decided = deciding::decide(h, jobs, &minutes, &allowed, booked);
    match decided.decision {
        Decision::Long(a) => unwritten(Answer::Long(a)),
        Decision::None(a) => unwritten(Answer::None(a)),
        Decision::Plan(p) => {
            let plan = write::write_plan(
                jobs,
                benches,
                p.moves,
                &minutes,
                booked,
                &decided.places,
                places,
                loads,
            );
            Filled {
                answer: Answer::Plan(plan),
                places: jobs,
                loads: benches,
            }
        }
    }
}

// The answer to a sheet, and how many entries of both tables were written: they are written for a plan only.
pub fn plan(s: &[u8], places: &mut [u64], loads: &mut [u64]) -> Filled
    ensures { Answered
        (answer_for s.now (length places.old) (length loads.old)) result
        places.old loads.old places.new loads.new }
{
    match reading::read(s) {
        Err(f) => unwritten(Answer::Fault(f)),
        Ok(sheet) => plan_sheet(sheet, places, loads),
    }
}
