// The mouse, the byte being sent and the pins: the kinds 5 to 8, each a whole event with its checks.
#![tactic(auto)]

pub mod mouse;
pub mod pins;
pub mod sending;
