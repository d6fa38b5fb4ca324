// Reading: frames in sheet order, each judged by the faults 2 to 11, 14 and 15, then fault 12.
ghost use Rattle.std.specs.Prelude.{◌≡◌, ℕ, ◌<◌, ◌^◌, List, get_or};
ghost use Rattle.fields.specs.Tests.{no_minutes, job_table};
ghost use Rattle.frame.specs.Reading.{read_sheet, stored, sheet_of, no_contents, end_verdict};

use fields::{Fault, Head, Sheet};
use judging::{Frame, Stage};

// The first fault of a sheet, or its contents.
pub fn read(s: &[u8]) -> Result<Sheet, Fault>
    ensures { result ≡ stored (read_sheet s.now) }
{
    if 65536 < s.len() {
        return Err(Fault::TooLong);
    }
    let mut sheet = empty();
    let mut stage = Stage::Start;
    // The benches that had a booking frame, as a set.
    let mut had = 0;
    let mut at = 0;
    while at < s.len() {
        let n = sheet.count;
        let benches = sheet.head.benches;
        let next = at + judging::frame_size(&s[at..]);
        match judging::frame_at(&s[at..], at, stage, benches, n, had)? {
            Frame::Foreign => {}
            Frame::Head(h) => {
                sheet.head = h;
                stage = Stage::Open;
            }
            Frame::Booking(b) => {
                let bench = b.bench;
                sheet.booked[bench] = b.minutes;
                // Also where it books 0 minutes.
                had = sets::add(had, bench, true);
            }
            Frame::Job(j) => {
                sheet.minutes[n] = j.minutes;
                sheet.allowed[n] = j.allowed;
                sheet.count = n + 1;
            }
            Frame::End => {
                stage = Stage::Closed;
            }
        }
        at = next;
    }
    let head = sheet.head;
    let count = sheet.count;
    finish(stage, at, head, count, &sheet.minutes, &sheet.allowed)?;
    Ok(sheet)
}

// A sheet with no head, no bookings and no jobs.
fn empty() -> Sheet
    ensures { result ≡ sheet_of no_contents }
{
    Sheet {
        head: Head {
            benches: 0,
            p: 0,
            q: 0,
            target: 0,
        },
        booked: [0; 64],
        count: 0,
        minutes: [0; 512],
        allowed: [0; 512],
    }
}

// After the last frame: fault 2 where no end frame came, and fault 12.
fn finish(
    stage: Stage,
    at: usize,
    h: Head,
    count: usize,
    minutes: &[u64],
    allowed: &[u64],
) -> Result<(), Fault>
    requires { (h.p < 128) × (h.q < 128) × ((n : ℕ) → n < count → get_or minutes.now n no_minutes < 2 ^ 20) }
    ensures { (bs : List ℕ) → result ≡ end_verdict stage at
        (record { head = h; booked = bs; jobs = job_table count minutes.now allowed.now }) }
{
    match stage {
        Stage::Closed => checks::check_hyper_edges(h, count, minutes, allowed),
        Stage::Start | Stage::Open => Err(Fault::Truncated(at)),
    }
}
