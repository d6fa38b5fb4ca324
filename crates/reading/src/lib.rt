// The bytes of a sheet to its contents, or to the first fault (frame's specs/Reading says which).
// `read` asks nothing of its caller.
#![tactic(auto)]

mod reader;

pub use reader::read;
