// Kinds 6 and 7, the end of a byte being sent: its device took it, or did not in time.
ghost use Rattle.machine.specs.State.{lift};
ghost use Rattle.machine.specs.Devices as device;
ghost use Rattle.machine.specs.Events.{event};
ghost use Rattle.state.specs.Changed.{Changed};
ghost use Rattle.state.specs.Told.{EventTold, own};

use checks::devices::check_end;
use lines::device::Device;
use lines::lines::{at_mode, put, put_from};
use refusals::refusal::Refusal;
use state::errors::set_errors;
use state::event::Value;
use state::flags::with_errors;
use state::state::{FLAGS, SENT, SENT_TO, State, TTIM};
use state::told::Told;
use translation::bits::weight;

// What the host reads after a byte that was not taken.
const NOT_TAKEN: u8 = 0xFE;

// Nothing is being sent any more.
fn stop_sending(s: &mut State)
    ensures { Changed (lift device.idle) s.old s.new }
{
    s[SENT_TO] = 0;
    s[SENT] = 0;
}

// A byte was not taken: TERR, or in AT mode the transmit time-out.
fn note_not_taken(s: &mut State)
    ensures { Changed (lift device.not_taken) s.old s.new }
{
    let in_at_mode = at_mode(s);
    let flags = s[FLAGS];
    s[FLAGS] = with_errors(flags, !in_at_mode, false);
    s[TTIM] = weight(1, in_at_mode);
}

fn taken(s: &mut State)
    ensures { Changed (lift device.taken) s.old s.new }
{
    stop_sending(s);
    set_errors(s, false, false);
}

// The byte put has the source of the device that was sent to. Any other number counts as the keyboard's, as in the definition: so it is looked at as
// it is, and is no `Option<Device>`.
fn timed_out(s: &mut State)
    ensures { Changed (lift device.timed_out) s.old s.new }
{
    let to = s[SENT_TO];
    stop_sending(s);
    note_not_taken(s);
    if to == Device::Mouse.number() {
        put_from(s, Device::Mouse, NOT_TAKEN);
    } else {
        put(s, NOT_TAKEN);
    }
}

pub fn taken_event(s: &mut State, value: Value) -> Result<Told, Refusal>
    ensures { EventTold s.old (event 6 value.low value.high) s.new (own result) }
{
    check_end(s, value)?;
    taken(s);
    Ok(Told::default())
}

pub fn timeout_event(s: &mut State, value: Value) -> Result<Told, Refusal>
    ensures { EventTold s.old (event 7 value.low value.high) s.new (own result) }
{
    check_end(s, value)?;
    timed_out(s);
    Ok(Told::default())
}
