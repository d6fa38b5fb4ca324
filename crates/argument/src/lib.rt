// Why the answers meet the demand: the argument for blocking sets, as definitions and theorems. No code.
#![tactic(auto)]
