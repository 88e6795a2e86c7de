// The controller: one event, a list of events, and what can be asked of a state.
#![tactic(auto)]

pub mod asked;
pub mod events;
pub mod run;
