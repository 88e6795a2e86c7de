// Kind 4, a frame from the keyboard.
ghost use Rattle.std.specs.Prelude.{◌≡◌};
ghost use Rattle.translation.specs.Frames.{verdict};
ghost use Rattle.translation.specs.ScanCodes.{translation, yielded};
ghost use Rattle.machine.specs.State.{lift};
ghost use Rattle.machine.specs.Devices as device;
ghost use Rattle.machine.specs.Events.{event};
ghost use Rattle.state.specs.View.{public};
ghost use Rattle.state.specs.Changed.{Changed};
ghost use Rattle.state.specs.Told.{EventTold, own};

use crate::lock::{set_position, try_key};
use checks::devices::check_keyboard;
use lines::lines::{entry, inhibited, locked, put, translates};
use refusals::refusal::Refusal;
use state::errors::{ERROR, set_errors};
use state::event::Value;
use state::flags::with_breaks;
use state::state::{FLAGS, State};
use state::told::Told;
use translation::frames::{Verdict, judge};
use translation::scan_codes::{Translated, raw, translate};

fn set_breaks(s: &mut State, breaks: bool)
    ensures { Changed (lift (device.breaking breaks)) s.old s.new }
{
    let flags = s[FLAGS];
    s[FLAGS] = with_breaks(flags, breaks);
}

// A damaged frame shows, unless locked or inhibited.
fn key_error(s: &mut State)
    ensures { Changed (lift device.key_error) s.old s.new }
{
    if locked(s) | inhibited(s) {
        return;
    }
    put(s, ERROR);
}

// The two errors are bits of the flags, in the definition's order: a struct of them would be taken apart at once.
fn damaged_key(s: &mut State, terr: bool, perr: bool)
    ensures { Changed (device.damaged_key terr perr) s.old s.new }
{
    set_errors(s, terr, perr);
    set_breaks(s, false);
    key_error(s);
    set_position(s, 0);
}

fn deliver_byte(s: &mut State, x: u8)
    ensures { Changed (device.byte_delivered x) s.old s.new }
{
    let swallowed = inhibited(s);
    let tried = locked(s);
    if swallowed {
        return;
    }
    if tried {
        try_key(s, x);
    } else {
        put(s, x);
    }
}

// The code, if any, that the translation yielded.
fn deliver_yield(s: &mut State, yields: Option<u8>)
    ensures { Changed (device.yield_delivered (yielded yields)) s.old s.new }
{
    if let Some(x) = yields {
        deliver_byte(s, x);
    }
}

// The break flag, which the prefix sets for the code after it.
fn breaks(s: &State) -> bool
    ensures { result ≡ (public s.now).breaks }
{
    s[FLAGS] / 32 % 2 == 1
}

// Translated, by the key table of the start, where the mode byte says so, and always while locked.
fn translated(s: &State, byte: u8) -> Translated
    ensures { translation result ≡ device.translated byte (public s.now) }
{
    if translates(s) | locked(s) {
        translate(entry(s, byte), byte, breaks(s))
    } else {
        raw(byte)
    }
}

fn sound_key(s: &mut State, byte: u8)
    ensures { Changed (device.sound_key byte) s.old s.new }
{
    let t = translated(s, byte);
    set_errors(s, false, false);
    set_breaks(s, t.breaks);
    deliver_yield(s, t.yields);
}

// What the frame does. Noise does nothing.
fn keyboard_frame(s: &mut State, v: Verdict)
    ensures { Changed (device.keyboard_frame (verdict v)) s.old s.new }
{
    match v {
        Verdict::Sound(byte) => sound_key(s, byte),
        Verdict::Parity => damaged_key(s, false, true),
        Verdict::Broken => damaged_key(s, true, false),
        Verdict::Noise => {}
    }
}

pub fn keyboard_event(s: &mut State, value: Value) -> Result<Told, Refusal>
    ensures { EventTold s.old (event 4 value.low value.high) s.new (own result) }
{
    check_keyboard(s, value)?;
    keyboard_frame(s, judge(value.word()));
    Ok(Told::default())
}
