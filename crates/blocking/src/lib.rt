// The demand as one claim (specs/Claim), and its proof from the argument. No code.
#![tactic(auto)]
