// A trackball as six bytes that a board keeps, and what it hands out as frames.
#![tactic(auto)]

pub mod calls;
pub mod frames;
pub mod stored;
