// Shows what the last exploration of a run sees: Algorithm 2's view of the sheet that is read from standard input.
// Fields are separated by one space; minutes are whole, benches and jobs count from 0, `-` stands for none.
//     fault NUMBER PLACE      alone: the sheet's first fault
//     long JOB                alone: the lowest job that is longer than the target
//     sheet BENCHES P Q TARGET JOBS       else first: the head, share P/Q
// Where heavy jobs crowd a component, no run begins, and there are only these:
//     heavy JOB MINUTES LOW HIGH -        for each heavy job with both its benches there
//     none 0 BENCH..          the benches of the component
// Else, after the run, by rising number:
//     bench BENCH BOOKED OWN LOAD ROUND LEVEL
//         its booked minutes; its load without the jobs of the `heavy` lines, and with those directed to it; the round
//         in which it joined the conflict set, or `-`; its level, or `-` where it is not activated
//     heavy JOB MINUTES LOW HIGH TO       a heavy job with two benches that is left after peeling: TO is the one of
//         both that it is directed to, or `-` where it is neutral
//     light JOB MINUTES BENCH ALLOWED..   a light job with a choice: where it lies, and all benches allowed
//     fixed JOB MINUTES BENCH ALLOWED..   any other job: it has one bench, or was peeled
// and at the end, where no bench is overloaded,
//     plan MOVES              the moves made
// and else
//     least MINUTES           the least that heavy jobs weigh inside the activated set, in any placement of them; `-`
//         where there is no placement
//     none MOVES BENCH..      the moves made, and the activated set
#![tactic(auto)]

mod lines;
mod steps;

use frame::Fault;
use std::io;

fn main(rt: HostRuntime) -> io::Result<()> {
    match input::read_sheet(&mut rt.stdin())? {
        Err(f) => see_fault(&rt, f),
        Ok(sheet) => steps::see_sheet(&rt, sheet),
    }
}

fn see_fault(rt: &impl Print, f: Fault) -> io::Result<()> {
    lines::line(
        rt,
        "fault",
        &[Some(f.number() as usize), Some(f.place())],
        0,
    )
}
