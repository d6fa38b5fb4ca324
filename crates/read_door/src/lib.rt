// Reading a sheet for C: the call behind the door (specs/ReadDoor says what it gives).
#![tactic(auto)]

mod call;

pub use call::read;
