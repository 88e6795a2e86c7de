// One event: its kind is looked at once, each kind makes its own checks, and the nine answer bytes are what it tells and what the lines show.
// A kind is any byte of a list or of C's, and one that is none is answered too, by check 1: so it is a number as far as `act`. An answer has document 01's
// nine bytes, with the number of the device and 0 for no frame: so its lines are six bytes as they stand in it, and the contract is one equation.
ghost use Rattle.std.specs.Prelude.{◌≡◌, ℕ, List, false};
ghost use Rattle.refusals.specs.Numbers.{outcome};
ghost use Rattle.machine.specs.Lines.{at_mode};
ghost use Rattle.machine.specs.Events as events;
ghost use Rattle.machine.specs.Events.{event};
ghost use Rattle.state.specs.View.{public};
ghost use Rattle.state.specs.Told.{EventTold, own};
ghost use Rattle.controller.specs.Steps.{EventReplied, with_status};

use checks::host::check_read;
use command_port::commands::command_event;
use data_port::reads::read_data;
use data_port::writes::data_event;
use devices::mouse::mouse_event;
use devices::pins::pins_event;
use devices::sending::{taken_event, timeout_event};
use keyboard::keyboard::keyboard_event;
use lines::lines::{at_mode, input_full, output_port, ps2_shown, status};
use refusals::refusal::Refusal;
use state::event::{Kind, Value};
use state::state::{SENT, SENT_TO, State};
use state::told::Told;
use translation::bits::weight;
use translation::frames::frame_of;

// A read of 64h. The byte that it gives is left to the lines, which have it.
fn read_status(value: Value) -> Result<Told, Refusal>
    ensures { (s : List ℕ) → EventTold s (event 2 value.low value.high) s (with_status 2 (public s) (own result)) }
{
    check_read(value)?;
    Ok(Told::default())
}

// The event, and what it itself tells.
fn act(s: &mut State, kind: u8, value: Value) -> Result<Told, Refusal>
    ensures { EventTold s.old (event kind value.low value.high) s.new (with_status kind (public s.new) (own result)) }
{
    match Kind::try_from(kind)? {
        Kind::ReadData => read_data(s, value),
        Kind::WriteData => data_event(s, value),
        Kind::ReadStatus => read_status(value),
        Kind::WriteCommand => command_event(s, value),
        Kind::KeyboardFrame => keyboard_event(s, value),
        Kind::MouseFrame => mouse_event(s, value),
        Kind::Taken => taken_event(s, value),
        Kind::TimeOut => timeout_event(s, value),
        Kind::Pins => pins_event(s, value),
    }
}

// The frame being sent, or 0 if nothing is being sent.
fn sent_frame(s: &State) -> u16
    ensures { result ≡ events.sent_frame (public s.now) }
{
    if input_full(s) { frame_of(s[SENT]) } else { 0 }
}

// The last six bytes of an answer: the lines as they are now, in either mode; the pulse mask is the event's own.
#[inline(always)]
#[tactic(auto, unfolding(machine::specs::Events::lines))]
pub(crate) fn lines(s: &State, pulse: u8) -> [u8; 6]
    ensures { result ≡ events.lines (public s.now) pulse }
{
    let [low, high] = sent_frame(s).to_le_bytes();
    [status(s), output_port(s), pulse, s[SENT_TO], low, high]
}

// The same in PS/2 mode, with fewer tests.
#[inline(always)]
fn ps2_lines(s: &State, pulse: u8) -> [u8; 6]
    requires { at_mode (public s.now) ≡ false }
    ensures { result ≡ events.lines (public s.now) pulse }
{
    let shown = ps2_shown(s);
    let [low, high] = sent_frame(s).to_le_bytes();
    [
        shown.status + weight(2, input_full(s)),
        shown.port,
        pulse,
        s[SENT_TO],
        low,
        high,
    ]
}

#[inline(always)]
fn lines_by_mode(s: &State, pulse: u8) -> [u8; 6]
    ensures { result ≡ events.lines (public s.now) pulse }
{
    if at_mode(s) {
        lines(s, pulse)
    } else {
        ps2_lines(s, pulse)
    }
}

// The kind of a read of 64h.
const READ_STATUS: u8 = 2;

// One event from any state, and its answer. What a refused event tells is its check alone.
pub(crate) fn respond(s: &mut State, kind: u8, value: Value, answer: &mut [u8; 9])
    ensures { EventReplied s.old (event kind value.low value.high) s.new answer.new }
{
    match act(s, kind, value) {
        Ok(told) => {
            let [status, port, pulse, to, low, high] = lines_by_mode(s, told.pulse);
            let read = if kind == READ_STATUS {
                status
            } else {
                told.read
            };
            *answer = [0, read, told.old as u8, status, port, pulse, to, low, high];
        }
        Err(refusal) => {
            let [status, port, pulse, to, low, high] = lines_by_mode(s, 0);
            *answer = [refusal.into(), 0, 0, status, port, pulse, to, low, high];
        }
    }
}

// The byte being sent; a state that keeps the body rules has 0 here with nobody.
pub fn sent_byte(s: &State) -> u8
    ensures { result ≡ (public s.now).sending.byte }
{
    s[SENT]
}

// The check that would refuse an event. Nothing is done.
pub fn check_event(s: &State, kind: u8, value: Value) -> Result<(), Refusal>
    ensures { outcome result ≡ events.refusal (public s.now) (event kind value.low value.high) }
{
    checks::events::check_event(s, kind, value)
}
