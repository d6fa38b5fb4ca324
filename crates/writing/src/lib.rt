// What a sheet holds to its bytes, or to why there are none (frame's specs/Writing says which).
// Neither function asks anything of its caller.
#![tactic(auto)]

mod writer;

pub use writer::{check_opening, write};
