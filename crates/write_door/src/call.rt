// Writing a sheet, for C.
ghost use Rattle.std.specs.Prelude.{◌≡◌, length};
ghost use Rattle.frame.specs.Writing.{contents_of, write_sheet, output};
ghost use Rattle.tables.specs.Tables.{numbers_of};
ghost use Rattle.door.specs.Door.{head_of, minutes_in, contents_in, written_word};

use frame::{Fault, Head, Job};

// Writes the sheet of a head, of a table of bookings and of the jobs of two tables to the front of `out`.
pub fn write(
    benches: u64,
    p: u64,
    q: u64,
    target: u64,
    booked: &[u8],
    minutes: &[u8],
    allowed: &[u8],
    out: &mut [u8],
) -> u64
    ensures written { result ≡ written_word (write_sheet
        (contents_in (head_of benches p q target) booked.now minutes.now allowed.now)
        (length out.old)) }
    ensures output { out.new ≡ output
        (write_sheet
        (contents_in (head_of benches p q target) booked.now minutes.now allowed.now)
        (length out.old))
        (contents_in (head_of benches p q target) booked.now minutes.now allowed.now)
        out.old }
{
    let h = Head {
        benches,
        p,
        q,
        target,
    };
    match write_sheet(h, booked, minutes, allowed, out) {
        Ok(length) => length as u64,
        Err(f) => tables::fault_word(f),
    }
}

// Writes the sheet of a head, of a table of bookings and of the jobs of two tables.
fn write_sheet(
    h: Head,
    booked: &[u8],
    minutes: &[u8],
    allowed: &[u8],
    out: &mut [u8],
) -> Result<usize, Fault>
    ensures written { result ≡ write_sheet (contents_in h booked.now minutes.now allowed.now)
        (length out.old) }
    ensures output { out.new ≡ output result (contents_in h booked.now minutes.now allowed.now) out.old }
{
    let mut first = [0u64; 64];
    let n = entries::load(booked, &mut first);
    if let Some(far) = entries::first_from(booked, 64) {
        // A bench past the 64 that a head may have: fault 14, after 7, 8 and 14 of the benches before it.
        return writing::check_opening(h, &first[..n]).and(Err(Fault::BookedBench(far)));
    }
    write_jobs(h, &first[..n], minutes, allowed, out)
}

// Writes the sheet of a head, of bookings and of the jobs of two tables.
fn write_jobs(
    h: Head,
    booked: &[u64],
    minutes: &[u8],
    allowed: &[u8],
    out: &mut [u8],
) -> Result<usize, Fault>
    ensures written { result ≡ write_sheet
        (contents_of h booked.now (minutes_in minutes.now) (numbers_of allowed.now))
        (length out.old) }
    ensures output { out.new ≡ output result
        (contents_of h booked.now (minutes_in minutes.now) (numbers_of allowed.now))
        out.old }
{
    // 513 jobs are enough to meet fault 9.
    let mut first = [0u64; 513];
    let mut second = [0u64; 513];
    let n = entries::load_given(minutes, Job::NO_MINUTES, &mut first);
    let m = entries::load(allowed, &mut second);
    writing::write(h, booked, &first[..n], &second[..m], out)
}
