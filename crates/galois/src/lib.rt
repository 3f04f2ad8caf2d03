// The theory below the codes: binary fields, their laws, and sums of powers over a word. It is all in specs/ and proofs/;
// the crates above cite it, and there is no code here.
#![tactic(auto)]
