// CONFLICT SET CONSTRUCTION on arrays (figure 4.6).
#![tactic(auto)]

mod conflict;

pub use conflict::construct;
