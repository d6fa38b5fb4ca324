// Writing a sheet for C: the call behind the door (door's specs/Door says what it gives).
#![tactic(auto)]

mod call;

pub use call::write;
