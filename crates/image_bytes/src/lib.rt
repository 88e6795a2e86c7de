// The bytes of a saved image around its body: the sum, the trailer, writing one, and finding one. What a body holds is said by the crates above.
#![tactic(auto)]

pub mod edition;
pub mod find;
pub mod layout;
pub mod seal;
mod sum;
