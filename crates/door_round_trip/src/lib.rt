// What the C door writes it reads back (specs/GivenBack, proofs/). No code.
#![tactic(auto)]
