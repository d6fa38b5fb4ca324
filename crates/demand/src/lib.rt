// What the demand speaks of: definitions in specs/, and in proofs/ small sheets on which they are computed. No code.
#![tactic(auto)]
