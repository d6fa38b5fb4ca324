// Activation of benches by Rules 1 and 2, on arrays.
#![tactic(auto)]

mod rules;

pub use rules::activate;
