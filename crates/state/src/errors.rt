// The error bits, and the byte that stands for a damaged frame.
ghost use Rattle.machine.specs.State.{lift};
ghost use Rattle.machine.specs.Devices as device;
ghost use Rattle.state.specs.Changed.{KeptChange};

use crate::flags::with_errors;
use crate::state::{FLAGS, State, TTIM};

// What the host reads in place of a damaged frame's byte.
pub const ERROR: u8 = 0xFF;

// Two bits of the flags, in the definition's order: a struct of them would be taken apart at once.
pub fn set_errors(s: &mut State, terr: bool, perr: bool)
    ensures { KeptChange (lift (device.errors_set terr perr)) s.old s.new }
{
    let flags = s[FLAGS];
    s[FLAGS] = with_errors(flags, terr, perr);
    s[TTIM] = 0;
}
