// What the printing program prints: the answers to a list of events as text.
#![tactic(auto)]

pub mod hex;
pub mod page;
mod text_lines;
