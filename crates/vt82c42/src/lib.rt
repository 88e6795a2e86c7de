// The second command set: the commands that only the VT82C42 has, and what they do.
#![tactic(auto)]

pub mod second_set;
