// What the state shows on the lines: the mode byte's bits, P1 as it is read, status and output port; and a byte put for the host.
#![tactic(auto)]

pub mod device;
pub mod lines;
pub mod mode;
