// A walk of nested blocks by any rules. There is no function here: see specs/ and proofs/.

#![tactic(auto)]
