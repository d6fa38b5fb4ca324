// The answers of the comparison.
use frame::Fault;

// Whether two plans put every job on the same bench, or the first fault.
#[derive(Drop)]
pub enum Compared {
    Same,
    Different,
    Fault(Fault),
}
