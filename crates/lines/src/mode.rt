// The mode byte, cell 0 of the RAM, written.
ghost use Rattle.std.specs.Prelude.{◌<◌};
ghost use Rattle.machine.specs.State.{lift};
ghost use Rattle.machine.specs.Lines as lines;
ghost use Rattle.lines.specs.Devices as devices;
ghost use Rattle.state.specs.Changed.{KeptChange, KeptWhere};

use crate::device::Device;
use crate::lines::mode;
use state::state::{MODE, State};

// Bit 7 of a mode byte is 0: with it set a body rule would be broken.
pub fn set_mode(s: &mut State, mode: u8)
    ensures { KeptWhere (mode < 128) (lift (lines.with_mode mode)) s.old s.new }
{
    s[MODE] = mode;
}

// A device switched off or on, by its bit.
pub fn disable(s: &mut State, device: Device)
    ensures { KeptChange (lift (devices.disabled device)) s.old s.new }
{
    let n = mode(s);
    set_mode(s, n | device.off_bit());
}

pub fn enable(s: &mut State, device: Device)
    ensures { KeptChange (lift (devices.enabled device)) s.old s.new }
{
    let n = mode(s);
    set_mode(s, n & (0xFF - device.off_bit()));
}
