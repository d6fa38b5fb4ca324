// Numbers in decimal.
ghost use Rattle.std.specs.Prelude.{◌+◌, ◌%◌, [], ◌∷◌};
ghost use Rattle.lines.specs.Buffer.{Puts};
ghost use Rattle.lines.specs.Lines.{digits};

use crate::buffer;

// Puts the decimal digits of n from place `at` on.
pub fn number(out: &mut [u8], at: usize, n: u64) -> usize
    ensures { Puts out.old at (digits n) out.new result }
{
    if n < 10 {
        return digit(out, at, n);
    }
    let end = number(out, at, n / 10);
    digit(out, end, n)
}

// Puts the last digit of n at place `at`.
fn digit(out: &mut [u8], at: usize, n: u64) -> usize
    ensures { Puts out.old at ((48 + n % 10) ∷ []) out.new result }
{
    buffer::byte(out, at, (48 + n % 10) as u8)
}
