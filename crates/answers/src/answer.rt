// The answers of the planner.
use fields::Fault;

// A plan: its largest load, the moves made, and the lowest bench that has the largest load.
#[derive(Drop)]
pub struct PlanAnswer {
    pub largest: u64,
    pub moves: u64,
    pub fullest: u64,
}

// The lowest job with more minutes than the target.
#[derive(Clone, Copy)]
pub struct LongAnswer {
    pub job: u64,
}

// A blocking set, bench b as the bit of weight 2 ^ (63 - b), and the moves made.
#[derive(Clone, Copy)]
pub struct NoneAnswer {
    pub set: u64,
    pub moves: u64,
}

// The three answers, or the first fault.
#[derive(Drop)]
pub enum Answer {
    Plan(PlanAnswer),
    Long(LongAnswer),
    None(NoneAnswer),
    Fault(Fault),
}

// An answer, and how many entries were written to the table of places and to the table of loads: none without a plan.
#[derive(Drop)]
pub struct Filled {
    pub answer: Answer,
    pub places: usize,
    pub loads: usize,
}
