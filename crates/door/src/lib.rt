// What the C door promises: definitions in specs/; in proofs/ the demand over its bytes, and the laws of its words.
// No code.
#![tactic(auto)]
