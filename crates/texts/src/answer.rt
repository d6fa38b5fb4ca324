// The lines of an answer.
ghost use Rattle.std.specs.Prelude.{[]};
ghost use Rattle.lines.specs.Buffer.{Front, Puts};
ghost use Rattle.lines.specs.Lines.{lines_of};

use answers::{Answer, PlanAnswer};
use fields::Fault;

// Writes the text of an answer to the front of `out`, and returns its length; `places` has the bench of each job.
// A text that does not fit is cut off, and the length returned is that of `out`.
pub fn text(answer: Answer, places: &[u64], out: &mut [u8]) -> usize
    ensures { Front out.old (lines_of answer places.now) out.new result }
{
    match answer {
        Answer::Plan(a) => plan_lines(out, 0, a, places),
        Answer::Long(a) => {
            let mut end = lines::bytes(out, 0, b"long");
            end = lines::word(out, end, a.job);
            lines::end_line(out, end)
        }
        Answer::None(a) => {
            let mut end = lines::bytes(out, 0, b"none");
            end = lines::word(out, end, a.moves);
            end = lines::benches(out, end, a.set);
            lines::end_line(out, end)
        }
        Answer::Fault(f) => fault_line(out, 0, f),
    }
}

// Puts the lines of a plan.
pub fn plan_lines(out: &mut [u8], at: usize, a: PlanAnswer, places: &[u64]) -> usize
    ensures { Puts out.old at (lines_of (Answer.Plan a) places.now) out.new result }
{
    let mut end = lines::bytes(out, at, b"plan ");
    end = lines::triple(out, end, a.largest, a.moves, a.fullest);
    lines::jobs(out, end, places)
}

// Puts the line of a fault, which has no places.
pub fn fault_line(out: &mut [u8], at: usize, f: Fault) -> usize
    ensures { Puts out.old at (lines_of (Answer.Fault f) []) out.new result }
{
    let end = lines::bytes(out, at, b"fault ");
    lines::pair(out, end, f.number(), f.place() as u64)
}
