// The state of a controller: its bytes, and small access to them.
#![tactic(auto)]

pub mod code;
pub mod errors;
pub mod event;
pub mod flags;
pub mod state;
pub mod told;
