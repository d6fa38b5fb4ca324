// What the C door promises of the check of a set of benches: definitions in specs/; in proofs/ the claim over its
// bytes. No code.
#![tactic(auto)]
