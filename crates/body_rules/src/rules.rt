// The body rules, over the bytes of a body.
ghost use Rattle.std.specs.Prelude.{◌≡◌};
ghost use Rattle.body_rules.specs.Rules as rules;

use crate::added::added_kept;
use crate::body::{
    Body, CELL, CODE, CODE_END, FLAGS, LATCHES, LENGTH, MODE, NIBBLE, OVERLAY, PENDING, POSITION,
    SENT, SENT_TO,
};

#[tactic(auto, unfolding(crate::specs::Rules::flags_kept))]
fn flags_kept(b: &Body) -> bool
    ensures { result ≡ rules.flags_kept b.now }
{
    let flags = b[FLAGS];
    if 0x80 <= flags {
        return false;
    }
    if flags / 2 % 2 == 1 {
        flags / 1 % 2 == 1
    } else {
        true
    }
}

fn latches_kept(b: &Body) -> bool
    ensures { result ≡ rules.latches_kept b.now }
{
    b[LATCHES] < 4
}

#[tactic(auto, unfolding(crate::specs::Rules::pending_kept))]
fn pending_kept(b: &Body) -> bool
    ensures { result ≡ rules.pending_kept b.now }
{
    let pending = b[PENDING];
    let cell = b[CELL];
    if 7 < pending {
        return false;
    }
    if pending == 2 {
        (1..=31).contains(&cell)
    } else {
        cell == 0
    }
}

#[tactic(auto, unfolding(crate::specs::Rules::overlay_kept))]
fn overlay_kept(b: &Body) -> bool
    ensures { result ≡ rules.overlay_kept b.now }
{
    let present = b[OVERLAY];
    let overlaid = b[NIBBLE];
    if 1 < present {
        return false;
    }
    if present == 0 {
        overlaid == 0
    } else {
        overlaid < 0x10
    }
}

#[tactic(auto, unfolding(crate::specs::Rules::sending_kept))]
fn sending_kept(b: &Body) -> bool
    ensures { result ≡ rules.sending_kept b.now }
{
    let to = b[SENT_TO];
    let sent = b[SENT];
    if 2 < to {
        return false;
    }
    if to == 0 { sent == 0 } else { true }
}

#[tactic(auto, unfolding(crate::specs::Rules::code_kept))]
fn code_kept(b: &Body) -> bool
    ensures { result ≡ rules.code_kept b.now }
{
    let count = b[LENGTH];
    if 16 < count {
        return false;
    }
    let (code, after) = b[CODE..CODE_END].split_at(count as usize);
    code.iter().all(|x| *x != 0) & after.iter().all(|x| *x == 0)
}

#[tactic(auto, unfolding(crate::specs::Rules::lock_kept))]
fn lock_kept(b: &Body) -> bool
    ensures { result ≡ rules.lock_kept b.now }
{
    let position = b[POSITION];
    let count = b[LENGTH];
    let pending = b[PENDING];
    let to = b[SENT_TO];
    if b[FLAGS] / 64 % 2 == 1 {
        (position < count) & ((pending == 0) & (to == 0))
    } else {
        position == 0
    }
}

fn mode_kept(b: &Body) -> bool
    ensures { result ≡ rules.mode_kept b.now }
{
    b[MODE] < 0x80
}

// The rules of edition 1, which hold in each.
#[tactic(auto, unfolding(crate::specs::Rules::common_kept))]
fn common_kept(b: &Body) -> bool
    ensures { result ≡ rules.common_kept b.now }
{
    flags_kept(b)
        & (latches_kept(b)
            & (pending_kept(b)
                & (overlay_kept(b)
                    & (sending_kept(b) & (code_kept(b) & (lock_kept(b) & mode_kept(b)))))))
}

// Whether a body keeps all the rules.
#[tactic(auto, unfolding(crate::specs::Rules::body_kept))]
pub fn body_kept(b: &Body) -> bool
    ensures { result ≡ rules.body_kept b.now }
{
    common_kept(b) & added_kept(b)
}
