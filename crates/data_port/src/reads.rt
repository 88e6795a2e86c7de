// Kind 0, the host reads port 60h: the output byte, which is old if the buffer was empty.
ghost use Rattle.machine.specs.State.{lift};
ghost use Rattle.machine.specs.Events as events;
ghost use Rattle.machine.specs.Events.{event};
ghost use Rattle.state.specs.Changed.{Changed};
ghost use Rattle.state.specs.Told.{EventTold, own};

use checks::host::check_read;
use lines::lines::output_full;
use refusals::refusal::Refusal;
use state::event::Value;
use state::flags::with_output;
use state::state::{FLAGS, OUTPUT, State};
use state::told::Told;

// The byte stays, and is old from now on.
fn empty(s: &mut State)
    ensures { Changed (lift events.emptied) s.old s.new }
{
    let flags = s[FLAGS];
    s[FLAGS] = with_output(flags, false, false);
}

pub fn read_data(s: &mut State, value: Value) -> Result<Told, Refusal>
    ensures { EventTold s.old (event 0 value.low value.high) s.new (own result) }
{
    check_read(value)?;
    let read = s[OUTPUT];
    let old = !output_full(s);
    empty(s);
    Ok(Told {
        read,
        old,
        ..Told::default()
    })
}
