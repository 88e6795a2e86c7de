// Command bytes: which act, and what each leaves.
#![tactic(auto)]

pub mod commands;
