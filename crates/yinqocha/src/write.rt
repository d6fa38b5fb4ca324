// Writing a sheet, for C.
ghost use Rattle.std.specs.Prelude.{◌≡◌, length};
ghost use Rattle.frame.specs.Writing.{write_sheet, output};
ghost use Rattle.door.specs.Door.{head_of, contents_in, written_word};

// Writes the sheet of a head, of a table of bookings and of the jobs of two tables to the front of `out`.
#[unsafe(no_mangle)]
pub extern "C" fn yinqocha_write(
    benches: u64,
    p: u64,
    q: u64,
    target: u64,
    booked: &[u8],
    minutes: &[u8],
    allowed: &[u8],
    out: &mut [u8],
) -> u64
    ensures written { result ≡ written_word (write_sheet
        (contents_in (head_of benches p q target) booked.now minutes.now allowed.now)
        (length out.old)) }
    ensures output { out.new ≡ output
        (write_sheet
        (contents_in (head_of benches p q target) booked.now minutes.now allowed.now)
        (length out.old))
        (contents_in (head_of benches p q target) booked.now minutes.now allowed.now)
        out.old }
{
    write_door::write(benches, p, q, target, booked, minutes, allowed, out)
}
