// The tests by which the code finds out, and the proofs that they decide the definitions. No code: see specs/ and proofs/.
#![tactic(auto)]
