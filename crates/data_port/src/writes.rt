// Kind 1, a byte written to port 60h: what it does goes by the pending code.
ghost use Rattle.std.specs.Prelude.{◌≡◌, cond, ◌<◌, get_or};
ghost use Rattle.machine.specs.State.{lift};
ghost use Rattle.machine.specs.DataPort as port;
ghost use Rattle.machine.specs.Events.{event};
ghost use Rattle.lines.specs.Devices.{number};
ghost use Rattle.state.specs.View.{public};
ghost use Rattle.state.specs.Changed.{Changed};
ghost use Rattle.state.specs.Told.{EventTold, own};

use checks::host::check_write;
use lines::device::Device;
use lines::lines::{at_mode, put, put_from, second_set};
use lines::mode::{enable, set_mode};
use refusals::refusal::Refusal;
use state::code::drop_code;
use state::event::Value;
use state::flags::with_command;
use state::state::{
    CELL, CODE, FLAGS, HIGH_LATCHES, LATCHES, LENGTH, OPTIONS, PENDING, RAM, SENT, SENT_TO, State,
};
use state::told::Told;
use translation::bits::nibble;

// A load takes this many code bytes.
const CODE_MOST: u8 = 16;

// No pending code.
fn settle(s: &mut State)
    ensures { Changed (lift port.settled) s.old s.new }
{
    s[PENDING] = 0;
    s[CELL] = 0;
}

// The command flag falls.
fn data_written(s: &mut State)
    ensures { Changed (lift port.data_written) s.old s.new }
{
    let flags = s[FLAGS];
    s[FLAGS] = with_command(flags, false);
}

// A byte handed to the transmitter.
fn send(s: &mut State, to: Device, byte: u8)
    ensures { Changed (lift (port.send (number to) byte)) s.old s.new }
{
    s[SENT_TO] = to.number();
    s[SENT] = byte;
}

// A byte to the keyboard, which is no longer off.
fn send_keyboard(s: &mut State, byte: u8)
    ensures { Changed (lift (port.send_keyboard byte)) s.old s.new }
{
    enable(s, Device::Keyboard);
    send(s, Device::Keyboard, byte);
}

// One of two lines.
fn either(first: bool, a: bool, b: bool) -> bool
    ensures { result ≡ cond first a b }
{
    if first { a } else { b }
}

// D1h may write P22 and P23.
fn high_writable(s: &State) -> bool
    ensures { result ≡ port.high_writable (public s.now) }
{
    either(second_set(s), s[OPTIONS] / 8 % 2 == 1, at_mode(s))
}

// D1h: bits 0 and 1 go to the latches, bits 2 and 3 where they may be written, bit 5 in AT mode.
fn latch(s: &mut State, v: u8)
    ensures { Changed (lift (port.latched v)) s.old s.new }
{
    let high = high_writable(s);
    let old = s[HIGH_LATCHES];
    let p22 = either(high, v / 4 % 2 == 1, old / 1 % 2 == 1);
    let p23 = either(high, v / 8 % 2 == 1, old / 2 % 2 == 1);
    let p25 = either(at_mode(s), v / 32 % 2 == 1, old / 8 % 2 == 1);
    s[LATCHES] = nibble(v / 1 % 2 == 1, v / 2 % 2 == 1, false, false);
    s[HIGH_LATCHES] = nibble(p22, p23, false, p25);
}

fn write_cell(s: &mut State, v: u8)
    ensures { Changed (lift (port.cell_written v)) s.old s.new }
{
    let k = s[CELL];
    if k < 32 {
        let at = RAM + (k as usize);
        s[at] = v;
    }
}

// The pending codes that concern the public part alone. Document 01 numbers the codes: the state's byte and an image hold the number.
fn plain_data(s: &mut State, v: u8)
    ensures { Changed (lift (port.plain_data v)) s.old s.new }
{
    let pending = s[PENDING];
    match pending {
        1 => set_mode(s, v % 0x80),
        2 => write_cell(s, v),
        4 => latch(s, v),
        5 => put(s, v),
        6 => put_from(s, Device::Mouse, v),
        7 => send(s, Device::Mouse, v),
        _ => send_keyboard(s, v),
    }
}

// One more byte of the lock code, of which there are at most fifteen.
fn append(s: &mut State, v: u8)
    requires { get_or s.old 10 0 < 16 }
    ensures { Changed (port.appended v) s.old s.new }
{
    let n = s[LENGTH];
    let at = CODE + (n as usize);
    s[at] = v;
    s[LENGTH] = n + 1;
}

// A byte of a load: 0 ends it, and so does a byte past the sixteenth, which leaves no code.
fn load_byte(s: &mut State, v: u8)
    ensures { Changed (port.load_byte v) s.old s.new }
{
    if v == 0 {
        settle(s);
        return;
    }
    if CODE_MOST <= s[LENGTH] {
        settle(s);
        drop_code(s);
        return;
    }
    append(s, v);
}

// What the byte does.
fn write_data(s: &mut State, v: u8)
    ensures { Changed (port.write_data v) s.old s.new }
{
    let pending = s[PENDING];
    data_written(s);
    if pending == 3 {
        load_byte(s, v);
    } else {
        plain_data(s, v);
        settle(s);
    }
}

pub fn data_event(s: &mut State, value: Value) -> Result<Told, Refusal>
    ensures { EventTold s.old (event 1 value.low value.high) s.new (own result) }
{
    check_write(s, value)?;
    write_data(s, value.low);
    Ok(Told::default())
}
