// The lock code in the state: how long it is, and dropping it. Its length is a byte beside its sixteen, as an image holds them. C's bytes may say more
// than sixteen: so that bound is had here and asked for where the code is indexed, and is no invariant of a type.
ghost use Rattle.std.specs.Prelude.{◌≡◌, false, ◌≤◌, length};
ghost use Rattle.machine.specs.DataPort.{dropped};
ghost use Rattle.state.specs.View.{view, public};
ghost use Rattle.state.specs.Changed.{KeptWhere};

use crate::state::{CODE, LENGTH, RAM, State};

// How long the lock code is.
pub fn code_length(s: &State) -> u8
    ensures { (result ≡ length (view s.now).secret.code) × (result ≤ 16) }
{
    s[LENGTH].min(16)
}

// No lock code, and no byte of it left. Locked, that would break a body rule: a lock needs a code.
pub fn drop_code(s: &mut State)
    ensures { KeptWhere ((public s.old).locked ≡ false) dropped s.old s.new }
{
    s[CODE..RAM].fill(0);
    s[LENGTH] = 0;
}
