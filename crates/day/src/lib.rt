// A day to plan, as the definitions in specs/. No code.
#![tactic(auto)]
