// Laws of the whole numbers, of fractions, and of a list with a new front. No code: see specs/ and proofs/.
#![tactic(auto)]
