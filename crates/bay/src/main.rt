// Plans the day of a sheet that is read from standard input, and prints the answer.
#![tactic(auto)]

ghost use Rattle.std.specs.Prelude.{◌≡◌, List, ℕ, IfSome, OnOk, length, take};
ghost use Rattle.std.specs.Io.KnownBytes.{Appends};
ghost use Rattle.bay.specs.Printed.{printed_lines, Prints};

use std::io;
use std::io::{Read, Write};

// One byte more than a sheet may have, so that fault 1 can be seen.
const SHEET_ROOM: usize = 65537;

// Room for the longest text of 512 jobs.
const TEXT_ROOM: usize = 32768;

fn main(rt: HostRuntime) -> io::Result<()> {
    reply(&mut rt.stdin(), &mut rt.stdout())
}

// Writes the text for the whole input, where neither reading nor writing fails.
fn reply<R: Read, W: Write>(reader: &mut R, writer: &mut W) -> io::Result<()>
    ensures { OnOk result (IfSome (R.remaining reader.old) (λ s.
        Appends (W.contents writer.old) (W.contents writer.new) (printed_lines s))) }
{
    let mut buffer = [0u8; SHEET_ROOM];
    let n = input::read_full(reader, &mut buffer)?;
    let mut out = [0u8; TEXT_ROOM];
    let end = printed(n, &buffer, &mut out);
    writer.write_all(&out[..end])
}

// Writes the text for the whole input s to the front of `out`, and returns its length,
// if the buffer's first n bytes are those of s, as far as the buffer has room. The bytes behind the text are kept.
fn printed(n: usize, buffer: &[u8; SHEET_ROOM], out: &mut [u8; TEXT_ROOM]) -> usize
    ensures { (s : List ℕ) → take n buffer.now ≡ take (length buffer.now) s
        → Prints s out.old out.new result }
{
    let whole: &[u8] = buffer;
    if n < whole.len() {
        return text_of(&whole[..n], out);
    }
    text_of(whole, out)
}

// Writes the text of the answer to a sheet to the front of `out`, and returns its length. The bytes behind it are kept.
fn text_of(s: &[u8], out: &mut [u8; TEXT_ROOM]) -> usize
    ensures { Prints s.now out.old out.new result }
{
    let mut places = [0u64; 512];
    let mut loads = [0u64; 64];
    let filled = public_plan::plan(s, &mut places, &mut loads);
    let jobs = filled.places;
    let answer = filled.answer;
    texts::text(answer, &places[..jobs], out)
}
