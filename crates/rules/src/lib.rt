// The definitions of the shadow baker. No code: see specs/ and proofs/.
#![tactic(auto)]
