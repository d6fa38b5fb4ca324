// The least weight of a placement: definitions in specs/, and in proofs/ why the procedure finds it. No code.
#![tactic(auto)]
