// This crate has no code: the demands are in specs/, their proofs there and in proofs/.

#![tactic(auto)]
