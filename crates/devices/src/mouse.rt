// Kind 5, a frame from the mouse.
ghost use Rattle.std.specs.Prelude.{false};
ghost use Rattle.translation.specs.Frames.{verdict};
ghost use Rattle.machine.specs.State.{lift};
ghost use Rattle.machine.specs.Devices as device;
ghost use Rattle.machine.specs.Events.{event};
ghost use Rattle.state.specs.Changed.{Changed};
ghost use Rattle.state.specs.Told.{EventTold, own};

use checks::devices::check_mouse;
use lines::device::Device;
use lines::lines::{locked, mouse_inhibited, put_from};
use refusals::refusal::Refusal;
use state::errors::{ERROR, set_errors};
use state::event::Value;
use state::state::State;
use state::told::Told;
use translation::frames::{Verdict, judge};

// A byte for the host, unless locked or kept back by the key switch.
fn put_from_mouse(s: &mut State, byte: u8)
    ensures { Changed (lift (device.mouse_put byte)) s.old s.new }
{
    if locked(s) | mouse_inhibited(s) {
        return;
    }
    put_from(s, Device::Mouse, byte);
}

// The two errors are bits of the flags, in the definition's order: a struct of them would be taken apart at once.
fn damaged_mouse(s: &mut State, terr: bool, perr: bool)
    ensures { Changed (lift (λ p. device.mouse_put 0xFF (device.errors_set terr perr p))) s.old s.new }
{
    set_errors(s, terr, perr);
    put_from_mouse(s, ERROR);
}

fn sound_mouse(s: &mut State, byte: u8)
    ensures { Changed (lift (λ p. device.mouse_put byte (device.errors_set false false p))) s.old s.new }
{
    set_errors(s, false, false);
    put_from_mouse(s, byte);
}

// What the frame does. Noise does nothing. The keyboard's frames have the same cases, but each does there what no other device's does: the break
// flag, the lock and the translation.
fn mouse_frame(s: &mut State, v: Verdict)
    ensures { Changed (lift (device.mouse_frame (verdict v))) s.old s.new }
{
    match v {
        Verdict::Sound(byte) => sound_mouse(s, byte),
        Verdict::Parity => damaged_mouse(s, false, true),
        Verdict::Broken => damaged_mouse(s, true, false),
        Verdict::Noise => {}
    }
}

pub fn mouse_event(s: &mut State, value: Value) -> Result<Told, Refusal>
    ensures { EventTold s.old (event 5 value.low value.high) s.new (own result) }
{
    check_mouse(s, value)?;
    mouse_frame(s, judge(value.word()));
    Ok(Told::default())
}
