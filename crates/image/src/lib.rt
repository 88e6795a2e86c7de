// Saved images of a controller: the bytes that a state is saved as, and the state that comes back from them. C has each call with a key table and
// without, which is the same call lent the built-in one, and passes one by one what they take.
#![tactic(auto)]

pub mod find;
pub mod load;
pub mod run;
pub mod save;
