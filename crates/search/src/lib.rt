// Searches below a number: definitions and laws only (specs/), and the set of rules by which proofs go by tests (proofs/).

#![tactic(auto)]
