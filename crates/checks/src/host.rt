// The checks of a read or a write.
ghost use Rattle.std.specs.Prelude.{◌≡◌};
ghost use Rattle.refusals.specs.Numbers.{outcome};
ghost use Rattle.machine.specs.State.{Public};
ghost use Rattle.machine.specs.Events.{event, refusal};
ghost use Rattle.state.specs.View.{public};

use crate::value::fits;
use lines::lines::{input_full, locked};
use refusals::refusal::Refusal;
use state::event::Value;
use state::state::State;

// Kinds 0 and 2.
pub fn check_read(value: Value) -> Result<(), Refusal>
    ensures { (p : Public) → (outcome result ≡ refusal p (event 0 value.low value.high)) × (outcome result ≡ refusal p (event 2 value.low value.high)) }
{
    fits(value, 0)
}

// Kinds 1 and 3.
pub fn check_write(s: &State, value: Value) -> Result<(), Refusal>
    ensures { let p = public s.now in (outcome result ≡ refusal p (event 1 value.low value.high)) × (outcome result ≡ refusal p (event 3 value.low value.high)) }
{
    fits(value, 255)?;
    if input_full(s) {
        Err(Refusal::StillSending)
    } else if locked(s) {
        Err(Refusal::Locked)
    } else {
        Ok(())
    }
}
