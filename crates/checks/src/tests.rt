// The tests of faults 7 to 11, 14 and 15, for the reader and the writer alike.
ghost use Rattle.std.specs.Prelude.{◌≡◌, cond};
ghost use Rattle.bits.specs.Bits.{is_set};
ghost use Rattle.fields.specs.Tests.{first_fault, head_faults, booking_faults, job_faults, share_fault};

use fields::{Booking, Fault, Head, Job};

// Faults 7 and 8.
pub fn check_head(h: Head, place: usize) -> Result<(), Fault>
    ensures { result ≡ first_fault (head_faults h place) }
{
    if h.benches == 0 {
        return Err(Fault::BenchCount(place));
    }
    if 64 < h.benches {
        return Err(Fault::BenchCount(place));
    }
    if 1073741824 <= h.target {
        return Err(Fault::BenchCount(place));
    }
    check_share(h, place)
}

// Fault 8 alone.
fn check_share(h: Head, place: usize) -> Result<(), Fault>
    ensures { result ≡ cond (share_fault h) (Err (Fault.Share place)) (Ok tt) }
{
    if 128 <= h.p {
        return Err(Fault::Share(place));
    }
    if 128 <= h.q {
        return Err(Fault::Share(place));
    }
    if h.q == 0 {
        return Err(Fault::Share(place));
    }
    if 7 * h.p < 4 * h.q {
        return Err(Fault::Share(place));
    }
    if h.q <= h.p {
        return Err(Fault::Share(place));
    }
    Ok(())
}

// Faults 14 and 15 for a booking; the set `had` has the benches of the booking frames before it.
pub fn check_booking(benches: u64, had: usize, b: Booking, place: usize) -> Result<(), Fault>
    ensures { result ≡ first_fault (booking_faults benches (is_set 64 had) b place) }
{
    if benches <= b.bench as u64 {
        return Err(Fault::BookedBench(place));
    }
    if 1048576 <= b.minutes {
        return Err(Fault::BookedBench(place));
    }
    if sets::has(had, b.bench) {
        return Err(Fault::BookedTwice(place));
    }
    Ok(())
}

// Faults 9 to 11 for job n.
pub fn check_job(benches: u64, n: usize, j: Job, place: usize) -> Result<(), Fault>
    ensures { result ≡ first_fault (job_faults benches n j place) }
{
    if 512 <= n {
        return Err(Fault::JobCount(place));
    }
    if 1048576 <= j.minutes {
        return Err(Fault::Minutes(place));
    }
    if j.allowed == 0 {
        return Err(Fault::Allowed(place));
    }
    if benches < 64 {
        // What is left of the field behind the head's benches.
        let lacking = j.allowed << benches;
        if lacking != 0 {
            return Err(Fault::Allowed(place));
        }
    }
    Ok(())
}
