// The answer of the search for the best target.
use crate::answer::PlanAnswer;
use fields::Fault;

// A target with its plan, and how many targets were run to find it.
#[derive(Drop)]
pub struct BestPlan {
    pub target: u64,
    pub plan: PlanAnswer,
    pub runs: u64,
}

// A target with its plan, or the first fault.
#[derive(Drop)]
pub enum BestAnswer {
    Best(BestPlan),
    Fault(Fault),
}

// An answer, and how many entries were written to the table of places and to the table of loads: none after a fault.
#[derive(Drop)]
pub struct BestFilled {
    pub answer: BestAnswer,
    pub places: usize,
    pub loads: usize,
}
