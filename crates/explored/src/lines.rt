// The lines that are printed (main.rt says which there are).
use crate::steps::{Day, Rocks};
use rocks::Limits;
use std::io;

// A space and a number, or `-` for none.
fn number(rt: &impl Print, n: Option<usize>) -> io::Result<()> {
    match n {
        Some(n) => print!(rt; " {n}"),
        None => print!(rt; " -"),
    }
}

// The benches of a set, rising.
fn members(rt: &impl Print, set: usize) -> io::Result<()> {
    for v in 0..64 {
        if sets::has(set, v) {
            print!(rt; " {v}")?;
        }
    }
    Ok(())
}

// A line: its word, numbers, and the benches of a set.
pub fn line(rt: &impl Print, word: &str, t: &[Option<usize>], set: usize) -> io::Result<()> {
    print!(rt; "{word}")?;
    for n in t {
        number(rt, *n)?;
    }
    members(rt, set)?;
    println!(rt; "")
}

// The weight 3q × minutes in minutes again.
fn minutes_of(q: usize, weight: usize) -> usize {
    let scale = arrays::times(3, q);
    if scale == 0 { 0 } else { weight / scale }
}

// The round of bench v, where it has one.
fn round_of(benches: usize, rounds: &[usize], v: usize) -> Option<usize> {
    if rocks::within(benches, rounds, v) {
        Some(arrays::at(rounds, v))
    } else {
        None
    }
}

// The benches, with their loads, own and under the last directions, and their rounds and levels.
pub fn benches(
    rt: &impl Print,
    d: Day<'_>,
    n: Limits,
    own: &[usize],
    load: &[usize],
    joined: &[usize],
    level: &[usize],
) -> io::Result<()> {
    let q = d.head.q as usize;
    for v in 0..n.benches {
        let fields = [
            Some(v),
            Some(arrays::at(d.booked, v)),
            Some(minutes_of(q, arrays::at(own, v))),
            Some(minutes_of(q, arrays::at(load, v))),
            round_of(n.benches, joined, v),
            round_of(n.benches, level, v),
        ];
        line(rt, "bench", &fields, 0)?;
    }
    Ok(())
}

// Rock r, where its lower bench is in the set. Its direction is one more than the bench, and 0 where it is neutral.
fn heavy(
    rt: &impl Print,
    minutes: &[usize],
    rocks: Rocks<'_>,
    dir: &[usize],
    set: usize,
    r: usize,
) -> io::Result<()> {
    let low = arrays::at(rocks.low, r);
    if !sets::has(set, low) {
        return Ok(());
    }
    let job = arrays::at(rocks.job, r);
    let fields = [
        Some(job),
        Some(arrays::at(minutes, job)),
        Some(low),
        Some(arrays::at(rocks.high, r)),
        arrays::at(dir, r).checked_sub(1),
    ];
    line(rt, "heavy", &fields, 0)
}

// The rocks between benches of the set.
pub fn heavies(
    rt: &impl Print,
    count: usize,
    minutes: &[usize],
    rocks: Rocks<'_>,
    dir: &[usize],
    set: usize,
) -> io::Result<()> {
    for r in 0..count {
        heavy(rt, minutes, rocks, dir, set, r)?;
    }
    Ok(())
}

// The jobs that are no rock that is left.
pub fn others(
    rt: &impl Print,
    d: Day<'_>,
    left: &[bool],
    pebble: &[bool],
    place: &[u8],
) -> io::Result<()> {
    for j in 0..d.jobs {
        if !arrays::at(left, j) {
            let word = if arrays::at(pebble, j) {
                "light"
            } else {
                "fixed"
            };
            let bench = usize::from(arrays::at(place, j));
            let fields = [Some(j), Some(arrays::at(d.minutes, j)), Some(bench)];
            line(rt, word, &fields, arrays::at(d.allowed, j))?;
        }
    }
    Ok(())
}
