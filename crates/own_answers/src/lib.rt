// The planner's own answers pass the checks (proofs/). No code.
#![tactic(auto)]
