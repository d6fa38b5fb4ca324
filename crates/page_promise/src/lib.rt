// What the C door promises of the check of a page of sets: definitions in specs/; in proofs/ the claim over its
// bytes. No code.
#![tactic(auto)]
