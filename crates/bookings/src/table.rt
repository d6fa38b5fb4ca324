// The bookings of a table: entry b is for bench b, and a booking of 0 is none.
ghost use Rattle.std.specs.Prelude.{◌≡◌, ◌+◌, ◌≤◌, [], ◌∷◌, ◌++◌, length, take, drop};
ghost use Rattle.fields.specs.Format.{booked_from, bookings, booking_frames};
ghost use Rattle.fields.specs.Tests.{first_fault, booked_faults};
ghost use Rattle.packing.specs.Packing.{frame_put};
ghost use Rattle.bookings.specs.Bookings.{cut_bookings, entry_frames};

use fields::{Booking, Fault};

// Fault 14, the lowest bench first.
pub fn check_bookings(benches: u64, booked: &[u64]) -> Result<(), Fault>
    ensures { result ≡ first_fault (booked_faults benches (bookings booked.now)) }
{
    for (bench, &minutes) in booked.iter().enumerate() {
        check_entry(benches, bench, minutes)?;
    }
    Ok(())
}

// Fault 14 of one bench.
fn check_entry(benches: u64, bench: usize, minutes: u64) -> Result<(), Fault>
    ensures { result ≡ first_fault (booked_faults benches (booked_from bench (minutes ∷ []))) }
{
    if minutes == 0 {
        return Ok(());
    }
    checks::check_booking(benches, 0, Booking { bench, minutes }, bench)
}

// How many bookings are above 0.
pub fn count_bookings(booked: &[u64]) -> usize
    ensures { result ≡ length (bookings booked.now) }
{
    booked.iter().filter(|&&minutes| minutes != 0).count()
}

// The frames of the bookings above 0, by rising bench, at the front of the output. Without room for all of them nothing
// is put; a number too wide is cut to its field.
pub fn put_bookings(booked: &[u64], out: &mut [u8])
    ensures { out.new
        ≡ frame_put (booking_frames (cut_bookings (bookings booked.now))) 0 out.old }
{
    if out.len() / 7 < count_bookings(booked) {
        return;
    }
    let mut at = 0;
    for (bench, &minutes) in booked.iter().enumerate() {
        at = put_entry(Booking { bench, minutes }, at, out);
    }
}

// The booking's frame at byte `at`, or none for 0 minutes; and the byte behind it.
fn put_entry(booking: Booking, at: usize, out: &mut [u8]) -> usize
    requires { at + length (entry_frames booking.bench booking.minutes) ≤ length out.old }
    ensures { (result ≡ at + length (entry_frames booking.bench booking.minutes))
        × (out.new
        ≡ take at out.old ++ entry_frames booking.bench booking.minutes ++ drop result out.old) }
{
    if booking.minutes == 0 {
        return at;
    }
    packing::put_booking(booking, &mut out[at..at + 7]);
    at + 7
}
