// This crate has no code: its definitions and theorems are in specs/.

#![tactic(auto)]
