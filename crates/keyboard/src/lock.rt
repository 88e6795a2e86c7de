// Keys typed while locked: the position that each leads to, and the lock that opens at the end of the code.
ghost use Rattle.machine.specs.Devices as device;
ghost use Rattle.state.specs.Changed.{Changed};

use crate::lock_code::{ignored, reach};
use lines::lines::put_cell;
use state::code::code_length;
use state::flags::with_locked;
use state::state::{FLAGS, POSITION, State};

pub(crate) fn set_position(s: &mut State, k: u8)
    ensures { Changed (device.positioned k) s.old s.new }
{
    s[POSITION] = k;
}

fn clear_lock(s: &mut State)
    ensures { Changed device.lock_cleared s.old s.new }
{
    let flags = s[FLAGS];
    s[FLAGS] = with_locked(flags, false);
    s[POSITION] = 0;
}

// A key while locked.
pub(crate) fn try_key(s: &mut State, x: u8)
    ensures { Changed (device.try x) s.old s.new }
{
    if ignored(s, x) {
        return;
    }
    let k = reach(s, x) as u8;
    if k == code_length(s) {
        clear_lock(s);
        put_cell(s, 0x14);
    } else {
        set_position(s, k);
    }
}
