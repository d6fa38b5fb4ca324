// Words and lines into a buffer.
ghost use Rattle.std.specs.Prelude.{[], ◌∷◌, map, length};
ghost use Rattle.sums.specs.Members.{members};
ghost use Rattle.bits.specs.Bits.{is_set};
ghost use Rattle.lines.specs.Buffer.{Puts};
ghost use Rattle.lines.specs.Lines.{digits, space, newline, line, spaced, job_lines};

use crate::{buffer, decimal};

// Puts a line of two numbers.
pub fn pair(out: &mut [u8], at: usize, x: u64, y: u64) -> usize
    ensures { Puts out.old at (line (digits x ∷ digits y ∷ [])) out.new result }
{
    let mut end = decimal::number(out, at, x);
    end = word(out, end, y);
    end_line(out, end)
}

// Puts a line of three numbers.
pub fn triple(out: &mut [u8], at: usize, x: u64, y: u64, z: u64) -> usize
    ensures { Puts out.old at (line (digits x ∷ digits y ∷ digits z ∷ [])) out.new result }
{
    let mut end = decimal::number(out, at, x);
    end = buffer::byte(out, end, b' ');
    pair(out, end, y, z)
}

// Puts a space and a number.
pub fn word(out: &mut [u8], at: usize, x: u64) -> usize
    ensures { Puts out.old at (space ∷ digits x) out.new result }
{
    let end = buffer::byte(out, at, b' ');
    decimal::number(out, end, x)
}

// Puts a newline.
pub fn end_line(out: &mut [u8], at: usize) -> usize
    ensures { Puts out.old at (newline ∷ []) out.new result }
{
    buffer::byte(out, at, b'\n')
}

// Puts the line of each job.
pub fn jobs(out: &mut [u8], at: usize, places: &[u64]) -> usize
    ensures { Puts out.old at (job_lines (length places.now) places.now)
        out.new result }
{
    let mut end = out.len().min(at);
    for (j, place) in places.iter().enumerate() {
        end = pair(out, end, j as u64, *place);
    }
    end
}

// Puts the benches of a set, rising, each behind a space.
pub fn benches(out: &mut [u8], at: usize, set: u64) -> usize
    ensures { Puts out.old at (spaced (map digits (members 64 (is_set 64 set))))
        out.new result }
{
    let mut end = out.len().min(at);
    for b in 0..64 {
        if (set >> (63 - b)) % 2 == 1 {
            end = word(out, end, b);
        }
    }
    end
}
