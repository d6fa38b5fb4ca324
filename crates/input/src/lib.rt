// The front of an input, into a buffer; and the sheet that an input is.
#![tactic(auto)]

ghost use Rattle.std.specs.Prelude.{◌≡◌, ◌≤◌, IfOk, IfSome, OnErr, length, take};
ghost use Rattle.std.specs.Io.KnownBytes.{Consumes};
ghost use Rattle.input.specs.Input.{ConsumesSome};

mod sheet;

pub use sheet::read_sheet;
use std::io;
use std::io::Read;

// Reads until the buffer is full or the input ends, and returns how many bytes it put at the buffer's front. The reader
// has lost these bytes and no others; after a failed read it has lost those that were read before.
pub fn read_full<R: Read>(reader: &mut R, buffer: &mut [u8]) -> io::Result<usize>
    ensures within { IfOk result (λ n. n ≤ length buffer.new) }
    ensures front { IfOk result (λ n. IfSome (R.remaining reader.old)
        (λ s. take n buffer.new ≡ take (length buffer.new) s)) }
    ensures consumed { IfOk result (λ n. Consumes (R.remaining reader.old) (R.remaining reader.new)
        (take n buffer.new)) }
    ensures err { OnErr result (ConsumesSome (R.remaining reader.old) (R.remaining reader.new)) }
{
    let mut filled = 0;
    while filled < buffer.len() {
        let n = reader.read(&mut buffer[filled..])?;
        if n == 0 {
            return Ok(filled);
        }
        filled += n;
    }
    Ok(filled)
}
