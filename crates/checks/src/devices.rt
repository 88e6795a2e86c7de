// The checks of what a device or the wire brings.
ghost use Rattle.std.specs.Prelude.{◌≡◌, cond, ◌||◌, ltb};
ghost use Rattle.refusals.specs.Numbers.{outcome};
ghost use Rattle.machine.specs.State.{Public};
ghost use Rattle.machine.specs.Lines.{input_full};
ghost use Rattle.translation.specs.Bits.{word};
ghost use Rattle.machine.specs.Events.{event, refusal};
ghost use Rattle.state.specs.View.{public};

use crate::value::fits;
use lines::lines::{at_mode, input_full, keyboard_off, mouse_off, output_full};
use refusals::refusal::Refusal;
use state::event::Value;
use state::state::State;

// Two devices send frames, and differ in two answers of the state, which are lent: a device as a parameter would be asked for both.
// A frame: the mode has no such device; or the device is off, the output buffer is full, or a byte is being sent.
fn check_frame(s: &State, absent: bool, off: bool, value: Value) -> Result<(), Refusal>
    ensures { let p = public s.now in outcome result ≡ cond (ltb 2047 (word value.low value.high)) 2 (cond absent 12 (cond (off || (p.output.full || input_full p)) 5 0)) }
{
    fits(value, 2047)?;
    if absent {
        Err(Refusal::NoMouse)
    } else if off | (output_full(s) | input_full(s)) {
        Err(Refusal::CannotReceive)
    } else {
        Ok(())
    }
}

// Kind 4.
pub fn check_keyboard(s: &State, value: Value) -> Result<(), Refusal>
    ensures { outcome result ≡ refusal (public s.now) (event 4 value.low value.high) }
{
    check_frame(s, false, keyboard_off(s), value)
}

// Kind 5.
pub fn check_mouse(s: &State, value: Value) -> Result<(), Refusal>
    ensures { outcome result ≡ refusal (public s.now) (event 5 value.low value.high) }
{
    check_frame(s, at_mode(s), mouse_off(s), value)
}

// Kinds 6 and 7, the end of a byte being sent.
pub fn check_end(s: &State, value: Value) -> Result<(), Refusal>
    ensures { let p = public s.now in (outcome result ≡ refusal p (event 6 value.low value.high)) × (outcome result ≡ refusal p (event 7 value.low value.high)) }
{
    fits(value, 0)?;
    if input_full(s) {
        Ok(())
    } else {
        Err(Refusal::NothingSent)
    }
}

// Kind 8.
pub fn check_pins(value: Value) -> Result<(), Refusal>
    ensures { (p : Public) → outcome result ≡ refusal p (event 8 value.low value.high) }
{
    fits(value, 255)
}
