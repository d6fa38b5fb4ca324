// What the C door promises of the best target: definitions in specs/; in proofs/ the claim over its bytes. No code.
#![tactic(auto)]
