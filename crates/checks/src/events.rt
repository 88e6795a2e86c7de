// Which check would refuse an event, without doing it.
ghost use Rattle.std.specs.Prelude.{◌≡◌};
ghost use Rattle.refusals.specs.Numbers.{outcome};
ghost use Rattle.machine.specs.Events.{event, refusal};
ghost use Rattle.state.specs.View.{public};

use crate::devices::{check_end, check_keyboard, check_mouse, check_pins};
use crate::host::{check_read, check_write};
use refusals::refusal::Refusal;
use state::event::{Kind, Value};
use state::state::State;

// A byte that stands for no kind is refused first.
pub fn check_event(s: &State, kind: u8, value: Value) -> Result<(), Refusal>
    ensures { outcome result ≡ refusal (public s.now) (event kind value.low value.high) }
{
    match Kind::try_from(kind)? {
        Kind::ReadData | Kind::ReadStatus => check_read(value),
        Kind::WriteData | Kind::WriteCommand => check_write(s, value),
        Kind::KeyboardFrame => check_keyboard(s, value),
        Kind::MouseFrame => check_mouse(s, value),
        Kind::Taken | Kind::TimeOut => check_end(s, value),
        Kind::Pins => check_pins(value),
    }
}
