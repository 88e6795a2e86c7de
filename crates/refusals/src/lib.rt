// The checks that refuse an event, a list, an image or a key table.
#![tactic(auto)]

pub mod refusal;
