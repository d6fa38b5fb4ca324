// Shows a sheet that is read from standard input: its head, bookings and jobs, or its first fault.
#![tactic(auto)]

use frame::{Fault, Sheet};
use std::io;

fn main(rt: HostRuntime) -> io::Result<()> {
    match input::read_sheet(&mut rt.stdin())? {
        Err(f) => show_fault(&rt, f),
        Ok(sheet) => show_sheet(&rt, sheet),
    }
}

fn show_fault(rt: &impl Print, f: Fault) -> io::Result<()> {
    println!(rt; "fault {} {}", f.number(), f.place())
}

fn show_sheet(rt: &impl Print, s: Sheet) -> io::Result<()> {
    let h = s.head;
    let count = s.count;
    println!(rt;
        "{} benches, share {}/{}, target {} minutes, {count} jobs",
        h.benches, h.p, h.q, h.target
    )?;
    show_bookings(rt, &s.booked)?;
    for n in 0..count.min(512) {
        show_job(rt, n, s.minutes[n], s.allowed[n])?;
    }
    Ok(())
}

// The minutes booked on each bench, by rising bench, where there are any.
fn show_bookings(rt: &impl Print, booked: &[u64]) -> io::Result<()> {
    for (b, minutes) in booked.iter().enumerate() {
        if *minutes != 0 {
            show_booking(rt, b, *minutes)?;
        }
    }
    Ok(())
}

fn show_booking(rt: &impl Print, b: usize, minutes: u64) -> io::Result<()> {
    println!(rt; "bench {b}: {minutes} minutes booked")
}

fn show_job(rt: &impl Print, n: usize, minutes: u64, allowed: u64) -> io::Result<()> {
    print!(rt; "job {n}: {minutes} minutes, benches")?;
    for b in 0..64u64 {
        if (allowed >> (63 - b)) % 2 == 1 {
            print!(rt; " {b}")?;
        }
    }
    println!(rt; "")
}
