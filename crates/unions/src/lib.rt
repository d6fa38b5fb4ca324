// Unions of sets of benches: definitions in specs/, and in proofs/ why the union of blocking sets that share no bench
// is blocking. No code.
#![tactic(auto)]
