// The three demands of the user as theorems over the definitions of the crates below. There is no code here: the statements stand in specs/,
// what proves them in proofs/.

#![tactic(auto)]
