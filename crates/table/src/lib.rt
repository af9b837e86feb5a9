// The worked examples, proved from the definitions. No code: see proofs/.

#![tactic(auto)]
