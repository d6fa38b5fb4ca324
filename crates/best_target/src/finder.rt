// The best target of a sheet: the sheet is read once, targets are run, and the tables of the plan found are written.
ghost use Rattle.std.specs.Prelude.{◌≡◌, ℕ, List, length};
ghost use Rattle.fields.specs.Contents.{Contents};
ghost use Rattle.frame.specs.Reading.{read_sheet, accepted, sheet_of};
ghost use Rattle.answers.specs.declared.best.BestAnswer.TheVariants.{Fault as Faulty};
ghost use Rattle.answers.specs.BestAnswers.{BestAnswered};
ghost use Rattle.algorithm.specs.Best.{best_for};
ghost use Rattle.best_target.specs.BestClaim.{BestClaim};

use answers::{BestAnswer, BestFilled, BestPlan};
use frame::{Fault, Sheet};

// A fault, which leaves both tables as they are.
fn refusal(f: Fault) -> BestFilled
    ensures { result ≡ record { answer = Faulty f; places = 0; loads = 0 } }
{
    BestFilled {
        answer: BestAnswer::Fault(f),
        places: 0,
        loads: 0,
    }
}

// Fault 13, and then the target with its plan.
fn best_of_sheet(s: Sheet, places: &mut [u64], loads: &mut [u64]) -> BestFilled
    ensures { (bytes : List ℕ) → (c : Contents) → read_sheet bytes ≡ accepted c → s ≡ sheet_of c
        → BestAnswered (best_for bytes (length places.old) (length loads.old)) result
        places.old loads.old places.new loads.new }
{
    let h = s.head;
    let jobs = s.count;
    let benches = h.benches as usize;
    if places.len() < jobs {
        return refusal(Fault::Table(0));
    }
    if loads.len() < benches {
        return refusal(Fault::Table(0));
    }
    let mut minutes = [0usize; 512];
    let mut allowed = [0usize; 512];
    arrays::to_numbers(jobs, &s.minutes, &mut minutes);
    arrays::to_numbers(jobs, &s.allowed, &mut allowed);
    let mut booked = [0usize; 64];
    arrays::to_numbers(benches, &s.booked, &mut booked);
    let found = searching::search(h, jobs, &minutes, &allowed, booked);
    let plan = planning::write_plan(
        jobs,
        benches,
        found.moves,
        &minutes,
        booked,
        &found.places,
        places,
        loads,
    );
    BestFilled {
        answer: BestAnswer::Best(BestPlan {
            target: found.target,
            plan,
            runs: found.runs,
        }),
        places: jobs,
        loads: benches,
    }
}

// The best target of a sheet with its plan, and how many entries of both tables were written: none after a fault.
// The equation is the search of request S-4, from the bytes of a sheet.
pub fn best(s: &[u8], places: &mut [u64], loads: &mut [u64]) -> BestFilled
    ensures equation { BestAnswered
        (best_for s.now (length places.old) (length loads.old)) result
        places.old loads.old places.new loads.new }
    ensures claim { BestClaim s.now places.old loads.old result.answer
        places.new loads.new }
{
    match reading::read(s) {
        Err(f) => refusal(f),
        Ok(sheet) => best_of_sheet(sheet, places, loads),
    }
}
