// Port 60h: the kinds 0 and 1, each a whole event with its checks.
#![tactic(auto)]

pub mod reads;
pub mod writes;
