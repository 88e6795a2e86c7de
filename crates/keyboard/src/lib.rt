// Kind 4, a frame from the keyboard, as a whole event with its checks; and the lock that keys typed while locked may open.
#![tactic(auto)]

pub mod keyboard;
mod lock;
mod lock_code;
