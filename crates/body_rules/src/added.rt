// The body rules for the four bytes that edition 2 adds.
ghost use Rattle.std.specs.Prelude.{◌≡◌};
ghost use Rattle.body_rules.specs.Added as rules;

use crate::body::{Body, HIGH_LATCHES, INPUT_LATCHES, NIBBLE, OPTIONS, TTIM};

#[tactic(auto, unfolding(crate::specs::Added::unused_kept))]
fn unused_kept(b: &Body) -> bool
    ensures { result ≡ rules.unused_kept b.now }
{
    let options = b[OPTIONS];
    let input = b[INPUT_LATCHES];
    let high = b[HIGH_LATCHES];
    let time_out = b[TTIM];
    (options < 0x10) & ((input < 0x40) & ((high < 0x10) & (!(high / 4 % 2 == 1) & (time_out < 2))))
}

#[tactic(auto, unfolding(crate::specs::Added::first_set_kept))]
fn first_set_kept(b: &Body) -> bool
    ensures { result ≡ rules.first_set_kept b.now }
{
    let options = b[OPTIONS];
    let input = b[INPUT_LATCHES];
    if options / 4 % 2 == 1 {
        return true;
    }
    (input == 0x3F) & !(options / 8 % 2 == 1)
}

#[tactic(auto, unfolding(crate::specs::Added::ps2_kept))]
fn ps2_kept(b: &Body) -> bool
    ensures { result ≡ rules.ps2_kept b.now }
{
    let options = b[OPTIONS];
    let high = b[HIGH_LATCHES];
    let time_out = b[TTIM];
    if options / 2 % 2 == 1 {
        return true;
    }
    let unseen = !(high / 8 % 2 == 1) & (time_out == 0);
    if options / 4 % 2 == 1 {
        unseen
    } else {
        (high == 3) & unseen
    }
}

#[tactic(auto, unfolding(crate::specs::Added::second_set_kept))]
fn second_set_kept(b: &Body) -> bool
    ensures { result ≡ rules.second_set_kept b.now }
{
    let options = b[OPTIONS];
    let overlaid = b[NIBBLE];
    if options / 4 % 2 == 1 {
        !(overlaid / 1 % 2 == 1)
    } else {
        true
    }
}

#[tactic(auto, unfolding(crate::specs::Added::added_kept))]
pub(crate) fn added_kept(b: &Body) -> bool
    ensures { result ≡ rules.added_kept b.now }
{
    unused_kept(b) & (first_set_kept(b) & (ps2_kept(b) & second_set_kept(b)))
}
