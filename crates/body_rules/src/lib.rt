// The body of a saved image, and the rules that it keeps. What its bytes stand for is said by the crates above.
#![tactic(auto)]

mod added;
pub mod body;
pub mod rules;
