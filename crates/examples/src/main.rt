// Runs the examples of document 01 that are not proved, 11 and 12, and prints each finding beside the expected one.
// A line end within a finding is shown as a semicolon.
#![tactic(auto)]

ghost use Rattle.std.specs.Prelude.{◌≡◌, ◌-◌};

use frame::Head;
use std::io;

fn main(rt: HostRuntime) -> io::Result<()> {
    print!(rt; "11 empty sheet: ")?;
    show_answer(&rt, b"")?;
    println!(rt; ", expected fault 2 0")?;

    // Head, three jobs, end; then the same with 21 00 01 FF after the head.
    print!(rt; "12 read: ")?;
    show_answer(
        &rt,
        b"\x11\x00\x07\x04\x10\x38\x00\x00\x01\x20\
        \x12\x00\x0B\x00\x00\x5C\x00\x00\x00\x00\x00\x00\x00\x00\
        \x12\x00\x0B\x00\x00\x5C\x00\x00\x00\x00\x00\x00\x00\x00\
        \x12\x00\x0B\x00\x00\x5C\x00\x00\x00\x00\x00\x00\x00\x00\
        \x13\x00\x00",
    )?;
    println!(rt; ", expected plan 15 0 0;0 0;1 0;2 0")?;

    print!(rt; "12 with a foreign frame: ")?;
    show_answer(
        &rt,
        b"\x11\x00\x07\x04\x10\x38\x00\x00\x01\x20\
        \x21\x00\x01\xFF\
        \x12\x00\x0B\x00\x00\x5C\x00\x00\x00\x00\x00\x00\x00\x00\
        \x12\x00\x0B\x00\x00\x5C\x00\x00\x00\x00\x00\x00\x00\x00\
        \x12\x00\x0B\x00\x00\x5C\x00\x00\x00\x00\x00\x00\x00\x00\
        \x13\x00\x00",
    )?;
    println!(rt; ", expected plan 15 0 0;0 0;1 0;2 0")?;

    show_written(&rt)
}

// Plans a sheet of at most 8 jobs and benches, and prints the answer in one line.
fn show_answer(rt: &impl Print, s: &[u8]) -> io::Result<()> {
    let mut places = [0u64; 8];
    let mut loads = [0u64; 8];
    let filled = public_plan::plan(s, &mut places, &mut loads);
    let jobs = filled.places;
    let answer = filled.answer;
    let mut out = [0u8; 256];
    let n = texts::text(answer, &places[..jobs], &mut out);
    join(&mut out);
    // Without the last line end.
    rt.write_all(&out[..one_less(n)])
}

// Puts a semicolon for each line end.
fn join(out: &mut [u8]) {
    for b in out {
        *b = joined(*b);
    }
}

fn joined(b: u8) -> u8 {
    if b == b'\n' { b';' } else { b }
}

fn one_less(n: usize) -> usize
    ensures { result ≡ n - 1 }
{
    if n == 0 { 0 } else { n - 1 }
}

// Writes the sheet of example 5, and prints its frames.
fn show_written(rt: &impl Print) -> io::Result<()> {
    // Nothing is booked.
    let booked = [0u64; 2];
    let minutes = [5u64; 3];
    // Benches 0 and 1: the bits of weight 2 ^ 63 and 2 ^ 62.
    let allowed = [0xC000000000000000u64; 3];
    let mut out = [0u8; 64];
    let written = writing::write(
        Head {
            benches: 2,
            p: 4,
            q: 7,
            target: 9,
        },
        &booked,
        &minutes,
        &allowed,
        &mut out,
    );
    let size = written.unwrap_or(0);
    print!(rt; "12 length written: {size}, expected 55\n12 head written:")?;
    show_bytes(rt, &out[..10])?;
    print!(rt; ", expected 11 00 07 04 10 38 00 00 01 20\n12 job 0 written:")?;
    show_bytes(rt, &out[10..24])?;
    print!(rt; ", expected 12 00 0b 00 00 5c 00 00 00 00 00 00 00 00\n12 job 1 written:")?;
    show_bytes(rt, &out[24..38])?;
    print!(rt; ", expected 12 00 0b 00 00 5c 00 00 00 00 00 00 00 00\n12 job 2 written:")?;
    show_bytes(rt, &out[38..52])?;
    print!(rt; ", expected 12 00 0b 00 00 5c 00 00 00 00 00 00 00 00\n12 end written:")?;
    show_bytes(rt, &out[52..55])?;
    println!(rt; ", expected 13 00 00")
}

// Prints bytes in hexadecimal, each behind a space.
fn show_bytes(rt: &impl Print, s: &[u8]) -> io::Result<()> {
    for b in s {
        print!(rt; " {b:02x}")?;
    }
    Ok(())
}
