// Kind 8, the input port's pins.
ghost use Rattle.machine.specs.State.{lift};
ghost use Rattle.machine.specs.Devices as device;
ghost use Rattle.machine.specs.Events.{event};
ghost use Rattle.state.specs.Changed.{Changed};
ghost use Rattle.state.specs.Told.{EventTold, own};

use checks::devices::check_pins;
use refusals::refusal::Refusal;
use state::event::Value;
use state::state::{PINS, State};
use state::told::Told;

fn set_pins(s: &mut State, pins: u8)
    ensures { Changed (lift (device.pinned pins)) s.old s.new }
{
    s[PINS] = pins;
}

pub fn pins_event(s: &mut State, value: Value) -> Result<Told, Refusal>
    ensures { EventTold s.old (event 8 value.low value.high) s.new (own result) }
{
    check_pins(value)?;
    set_pins(s, value.low);
    Ok(Told::default())
}
