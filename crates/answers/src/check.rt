// The answers of the checks: of a list of places, of a set of benches, and of a page of sets.
use crate::answer::LongAnswer;
use fields::Fault;

// A list that passed: its largest load, and the lowest bench that has it.
#[derive(Drop)]
pub struct ListPassed {
    pub largest: u64,
    pub fullest: u64,
}

// Whether a list is a plan of its sheet, or the first fault.
#[derive(Drop)]
pub enum ListAnswer {
    Passed(ListPassed),
    NotPassed,
    Fault(Fault),
}

// Whether a set blocks its sheet, a job that is too long, or the first fault.
#[derive(Drop)]
pub enum SetAnswer {
    Passed,
    Long(LongAnswer),
    NotPassed,
    Fault(Fault),
}

// Whether each set on a page blocks the sheet, a job that is too long, the number of the first set that does not, or
// the first fault.
#[derive(Drop)]
pub enum PageAnswer {
    Passed,
    Long(LongAnswer),
    NotPassed(u64),
    Fault(Fault),
}
