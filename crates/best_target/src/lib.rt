// The best target of a sheet, with its plan, and what is promised of it (specs/BestClaim).
#![tactic(auto)]

mod finder;

pub use finder::best;
