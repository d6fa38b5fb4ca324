// What the C door promises of the check of a list of places: definitions in specs/; in proofs/ the claim over its
// bytes. No code.
#![tactic(auto)]
