// Writing: the tests 7, 8, 14 and 9 to 12, room for the output, then the frames.
ghost use Rattle.std.specs.Prelude.{◌≡◌, ℕ, ◌+◌, ◌*◌, ◌^◌, ◌≤◌, ◌<◌, ◌++◌, length, take, drop, get_or};
ghost use Rattle.fields.specs.Format.{job_frames};
ghost use Rattle.fields.specs.Tests.{no_minutes, job_table};
ghost use Rattle.frame.specs.Writing.{contents_of, jobs_verdict, opening_verdict};
ghost use Rattle.frame.specs.Writing.{writer_verdict, write_sheet, output};

use fields::{Fault, Head, Job};

// Writes the head, the bookings above 0 of a table, the jobs of two tables (minutes, benches allowed) and the end to
// the front of `out`. Past the end of a table nothing is booked, no minutes are given (fault 10), no bench is allowed.
pub fn write(
    h: Head,
    booked: &[u64],
    minutes: &[u64],
    allowed: &[u64],
    out: &mut [u8],
) -> Result<usize, Fault>
    ensures { (result ≡ write_sheet (contents_of h booked.now minutes.now allowed.now)
        (length out.old))
        × (out.new ≡ output result
        (contents_of h booked.now minutes.now allowed.now) out.old) }
{
    let n = minutes.len().max(allowed.len());
    check(h, booked, n, minutes, allowed)?;
    let start = 10 + 7 * bookings::count_bookings(booked);
    let size = start + 14 * n + 3;
    if out.len() < size {
        return Err(Fault::Table(0));
    }
    packing::put_head(h, out);
    bookings::put_bookings(booked, &mut out[10..start]);
    put_jobs(n, minutes, allowed, start, out);
    packing::put_end(out, size - 3);
    Ok(size)
}

// Faults 7, 8 and 14 of a head and a table of bookings.
pub fn check_opening(h: Head, booked: &[u64]) -> Result<(), Fault>
    ensures { result ≡ opening_verdict h booked.now }
{
    checks::check_head(h, 0)?;
    bookings::check_bookings(h.benches, booked)
}

// Faults 7, 8, 14 and 9 to 12.
fn check(h: Head, booked: &[u64], n: usize, minutes: &[u64], allowed: &[u64]) -> Result<(), Fault>
    ensures { result ≡ writer_verdict (record {
      head = h;
      booked = booked.now;
      jobs = job_table n minutes.now allowed.now;
    }) }
{
    check_opening(h, booked)?;
    check_jobs(h.benches, n, minutes, allowed)?;
    checks::check_hyper_edges(h, n, minutes, allowed)
}

// Faults 9 to 11 of the first n jobs, in order.
fn check_jobs(benches: u64, n: usize, minutes: &[u64], allowed: &[u64]) -> Result<(), Fault>
    ensures { result ≡ jobs_verdict benches 0 (job_table n minutes.now allowed.now) }
{
    for i in 0..n {
        let j = Job {
            minutes: checks::minutes_at(minutes, i),
            allowed: checks::allowed_at(allowed, i),
        };
        checks::check_job(benches, i, j, i)?;
    }
    Ok(())
}

// The frames of the first n jobs, from byte `start` on.
fn put_jobs(n: usize, minutes: &[u64], allowed: &[u64], start: usize, out: &mut [u8])
    requires { (n ≤ 512) × (start + 14 * n ≤ length out.old)
        × ((i : ℕ) → i < n → get_or minutes.now i no_minutes < 2 ^ 20) }
    ensures { out.new
        ≡ take start out.old
        ++ job_frames (job_table n minutes.now allowed.now)
        ++ drop (start + 14 * n) out.old }
{
    for i in 0..n {
        let j = Job {
            minutes: checks::minutes_at(minutes, i),
            allowed: checks::allowed_at(allowed, i),
        };
        let at = start + 14 * i;
        packing::put_job(j, &mut out[at..at + 14]);
    }
}
