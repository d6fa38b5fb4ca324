// What is decided of a day.
use answers::{LongAnswer, NoneAnswer};

// A plan, made by so many moves.
#[derive(Clone, Copy)]
pub struct PlanMoves {
    pub moves: u64,
}

// One of the three answers, before anything is written.
#[derive(Clone, Copy)]
pub enum Decision {
    Plan(PlanMoves),
    Long(LongAnswer),
    None(NoneAnswer),
}

// The decision; with a plan, `places` has the bench of each job. Entries past the jobs mean nothing.
#[derive(Drop)]
pub struct Decided {
    pub decision: Decision,
    pub places: [u8; 512],
}
