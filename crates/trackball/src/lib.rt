// A trackball: a PS/2 mouse, apart from the controller. It goes in by value and comes back.
#![tactic(auto)]

pub mod commands;
pub mod counters;
pub mod packets;
pub mod trackball;
