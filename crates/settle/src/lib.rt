// The rule for the rocks that stay neutral.
#![tactic(auto)]

mod settling;

pub use settling::settle;
