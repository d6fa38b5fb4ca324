// Algorithm 2: definitions and theorems; no code.
#![tactic(auto)]
