// The sheet that an input is.
ghost use Rattle.std.specs.Prelude.{◌≡◌, ℕ, List, IfOk, IfSome, length, take};
ghost use Rattle.frame.specs.Reading.{read_sheet, stored};
ghost use Rattle.input.specs.Input.{ConsumesSome};

use frame::{Fault, Sheet};
use std::io;
use std::io::Read;

// One byte more than a sheet may have, so that fault 1 can be seen.
const SHEET_ROOM: usize = 65537;

// What the whole input is read as, where no read fails. The reader has lost the bytes that were read and no others.
pub fn read_sheet<R: Read>(reader: &mut R) -> io::Result<Result<Sheet, Fault>>
    ensures sheet { IfOk result (λ r. IfSome (R.remaining reader.old) (λ s. r ≡ stored (read_sheet s))) }
    ensures consumed { ConsumesSome (R.remaining reader.old) (R.remaining reader.new) }
{
    let mut buffer = [0u8; SHEET_ROOM];
    let n = crate::read_full(reader, &mut buffer)?;
    Ok(input_read(n, &buffer))
}

// What the whole input s is read as, if the buffer's first n bytes are those of s, as far as the buffer has room.
fn input_read(n: usize, buffer: &[u8; SHEET_ROOM]) -> Result<Sheet, Fault>
    ensures { (s : List ℕ) → take n buffer.now ≡ take (length buffer.now) s
        → result ≡ stored (read_sheet s) }
{
    let whole: &[u8] = buffer;
    if n < whole.len() {
        return reading::read(&whole[..n]);
    }
    reading::read(whole)
}
