// The checks on paper: a table and a theorem, in specs/ and proofs/.

#![tactic(auto)]
