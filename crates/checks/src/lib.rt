// Which check refuses an event, by its number. Nothing here changes a state.
#![tactic(auto)]

pub mod devices;
pub mod events;
pub mod host;
mod value;
