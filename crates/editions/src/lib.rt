// Images of two editions: one of either read as edition 2 has it, and images moved from one to the other.
#![tactic(auto)]

pub mod moves;
pub mod read;
