// The lines of the best target.
ghost use Rattle.lines.specs.Buffer.{Front};
ghost use Rattle.lines.specs.BestLines.{best_lines_of};

use crate::answer;
use answers::BestAnswer;

// Writes the text of an answer to the front of `out`, and returns its length; `places` has the bench of each job.
// A text that does not fit is cut off, and the length returned is that of `out`.
pub fn best_text(answer: BestAnswer, places: &[u64], out: &mut [u8]) -> usize
    ensures { Front out.old (best_lines_of answer places.now) out.new result }
{
    match answer {
        BestAnswer::Best(b) => {
            let mut end = lines::bytes(out, 0, b"best ");
            end = lines::pair(out, end, b.target, b.runs);
            let plan = b.plan;
            answer::plan_lines(out, end, plan, places)
        }
        BestAnswer::Fault(f) => answer::fault_line(out, 0, f),
    }
}
