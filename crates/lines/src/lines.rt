// What the state shows: the mode byte's bits, status, the output port, and a byte put for the host. The two modes have other lines on P2, so each has a
// sum of its own. The definition has 0 past the RAM, and document 01 has 0 in a cell for no byte: so neither is an Option.
ghost use Rattle.std.specs.Prelude.{◌≡◌, false, ◌+◌, ◌*◌, ◌≤◌, get_or};
ghost use Rattle.machine.specs.State.{lift};
ghost use Rattle.translation.specs.Bits as bits;
ghost use Rattle.machine.specs.Lines as lines;
ghost use Rattle.lines.specs.Devices as devices;
ghost use Rattle.state.specs.View.{public};
ghost use Rattle.state.specs.Changed.{KeptChange};

use crate::device::Device;
use state::flags::with_output;
use state::state::{
    FLAGS, HIGH_LATCHES, INPUT_LATCHES, LATCHES, MODE, NIBBLE, OPTIONS, OUTPUT, OVERLAY, PINS, RAM,
    SENT_TO, State, TABLE, TTIM,
};
use translation::bits::{nibble, upper, weight};

// Started in AT mode, else in PS/2 mode.
pub fn at_mode(s: &State) -> bool
    ensures { result ≡ lines.at_mode (public s.now) }
{
    s[OPTIONS] / 2 % 2 == 1
}

// Started with the second command set, else with the first.
pub fn second_set(s: &State) -> bool
    ensures { result ≡ lines.second_set (public s.now) }
{
    s[OPTIONS] / 4 % 2 == 1
}

// A cell of the RAM, 0 past its end.
pub fn cell(s: &State, k: u8) -> u8
    ensures { result ≡ lines.cell_of (public s.now) k }
{
    if k < 32 {
        let at = RAM + (k as usize);
        s[at]
    } else {
        0
    }
}

// The entry of a byte in the key table.
pub fn entry(s: &State, byte: u8) -> u8
    ensures { result ≡ get_or (public s.now).settings.table byte 0 }
{
    let at = TABLE + (byte as usize);
    s[at]
}

// The mode byte: cell 0 of the RAM. Each of its bits is a question by the name that document 01 gives it.
pub fn mode(s: &State) -> u8
    ensures { result ≡ lines.mode (public s.now) }
{
    s[MODE]
}

// Whether a device is off is one bit for each, which the definition names: with the device as a parameter it would name none.
pub fn keyboard_off(s: &State) -> bool
    ensures { result ≡ lines.keyboard_off (public s.now) }
{
    s[MODE] / 16 % 2 == 1
}

pub fn mouse_off(s: &State) -> bool
    ensures { result ≡ lines.mouse_off (public s.now) }
{
    s[MODE] / 32 % 2 == 1
}

pub fn translates(s: &State) -> bool
    ensures { result ≡ lines.translates (public s.now) }
{
    s[MODE] / 64 % 2 == 1
}

// Output buffer full.
pub fn output_full(s: &State) -> bool
    ensures { result ≡ (public s.now).output.full }
{
    s[FLAGS] / 1 % 2 == 1
}

fn from_mouse(s: &State) -> bool
    ensures { result ≡ (public s.now).output.mouse }
{
    s[FLAGS] / 2 % 2 == 1
}

pub fn locked(s: &State) -> bool
    ensures { result ≡ (public s.now).locked }
{
    s[FLAGS] / 64 % 2 == 1
}

// Input buffer full: a byte is being sent.
pub fn input_full(s: &State) -> bool
    ensures { result ≡ lines.input_full (public s.now) }
{
    s[SENT_TO] != 0
}

// The input port P1 as it is read: with the second command set P10-P15 read 0 while their latches are 0.
pub fn input_port(s: &State) -> u8
    ensures { result ≡ lines.input_port (public s.now) }
{
    if second_set(s) {
        s[PINS] & (s[INPUT_LATCHES] | 0xC0)
    } else {
        s[PINS]
    }
}

// Bit 7 of P1, which has no latch: 0 while the key switch is turned.
fn key_switch(s: &State) -> bool
    ensures { result ≡ lines.key_switch (public s.now) }
{
    s[PINS] / 128 % 2 == 1
}

// The key switch is turned and the mode byte does not override it.
pub fn inhibited(s: &State) -> bool
    ensures { result ≡ lines.inhibited (public s.now) }
{
    !key_switch(s) & (s[MODE] / 8 % 2 != 1)
}

// The key switch is turned and locks the mouse too, whatever the mode byte says.
pub fn mouse_inhibited(s: &State) -> bool
    ensures { result ≡ lines.mouse_inhibited (public s.now) }
{
    (s[OPTIONS] / 1 % 2 == 1) & !key_switch(s)
}

// Bit 5 of the status: the unread byte is the mouse's; in AT mode the transmit time-out.
fn status_bit_5(s: &State) -> bool
    ensures { result ≡ lines.status_bit5 (public s.now) }
{
    if at_mode(s) {
        s[TTIM] / 1 % 2 == 1
    } else {
        output_full(s) & from_mouse(s)
    }
}

// What an overlay shows in bits 4-7 of the status: its nibble; with the second command set bit 4 remains the key switch.
fn overlay_shown(s: &State) -> u8
    ensures { (result ≡ 16 * lines.overlay_shown (public s.now)) × (result ≤ 240) }
{
    if second_set(s) {
        upper(
            key_switch(s),
            s[NIBBLE] / 2 % 2 == 1,
            s[NIBBLE] / 4 % 2 == 1,
            s[NIBBLE] / 8 % 2 == 1,
        )
    } else {
        16 * (s[NIBBLE] % 16)
    }
}

// Bits 4-7 of the status, with this bit 5.
fn high_status(s: &State, bit_5: bool) -> u8
    ensures { (result ≡ 16 * lines.high_with bit_5 (public s.now)) × (result ≤ 240) }
{
    if s[OVERLAY] == 1 {
        overlay_shown(s)
    } else {
        upper(
            key_switch(s),
            bit_5,
            s[FLAGS] / 8 % 2 == 1,
            s[FLAGS] / 16 % 2 == 1,
        )
    }
}

pub fn status(s: &State) -> u8
    ensures { result ≡ lines.status (public s.now) }
{
    nibble(
        output_full(s),
        input_full(s),
        s[MODE] / 4 % 2 == 1,
        s[FLAGS] / 4 % 2 == 1,
    ) + high_status(s, status_bit_5(s))
}

// KIRQ or MIRQ: a full buffer, while the interrupt of the device that its byte came from is enabled.
fn requests(s: &State) -> u8
    ensures { let p = public s.now in (result ≡ 16 * bits.nibble (lines.keyboard_request p) (lines.mouse_request p) false false) × (result ≤ 32) }
{
    if output_full(s) {
        if from_mouse(s) {
            weight(32, s[MODE] / 2 % 2 == 1)
        } else {
            weight(16, s[MODE] / 1 % 2 == 1)
        }
    } else {
        0
    }
}

// The output port P2 in PS/2 mode.
fn ps2_port(s: &State) -> u8
    ensures { result ≡ lines.ps2_port (public s.now) }
{
    nibble(
        s[LATCHES] / 1 % 2 == 1,
        s[LATCHES] / 2 % 2 == 1,
        false,
        mouse_off(s),
    ) + requests(s)
        + weight(64, keyboard_off(s))
}

// The output port P2 in AT mode.
fn at_port(s: &State) -> u8
    ensures { result ≡ lines.at_port (public s.now) }
{
    nibble(
        s[LATCHES] / 1 % 2 == 1,
        s[LATCHES] / 2 % 2 == 1,
        s[HIGH_LATCHES] / 1 % 2 == 1,
        s[HIGH_LATCHES] / 2 % 2 == 1,
    ) + upper(
        output_full(s) & (s[MODE] / 1 % 2 == 1),
        s[HIGH_LATCHES] / 8 % 2 == 1,
        keyboard_off(s),
        true,
    )
}

// The output port P2.
pub fn output_port(s: &State) -> u8
    ensures { result ≡ lines.output_port (public s.now) }
{
    if at_mode(s) { at_port(s) } else { ps2_port(s) }
}

// Status and output port.
#[derive(Clone, Copy)]
pub struct Shown {
    pub status: u8,
    pub port: u8,
}

// Status without IBF, and output port, in PS/2 mode: by cases of what the output buffer holds, so that no line is asked for twice.
#[inline(always)]
pub fn ps2_shown(s: &State) -> Shown
    ensures { let p = public s.now in (lines.at_mode p ≡ false → (result.status + bits.weight 2 (lines.input_full p) ≡ lines.status p) × (result.port ≡ lines.output_port p)) × (result.status ≤ 253) }
{
    let low = nibble(false, false, s[MODE] / 4 % 2 == 1, s[FLAGS] / 4 % 2 == 1);
    let port = nibble(
        s[LATCHES] / 1 % 2 == 1,
        s[LATCHES] / 2 % 2 == 1,
        false,
        mouse_off(s),
    ) + weight(64, keyboard_off(s));
    if !output_full(s) {
        return Shown {
            status: low + high_status(s, false),
            port,
        };
    }
    if from_mouse(s) {
        Shown {
            status: low + 1 + high_status(s, true),
            port: port + weight(32, s[MODE] / 2 % 2 == 1),
        }
    } else {
        Shown {
            status: low + 1 + high_status(s, false),
            port: port + weight(16, s[MODE] / 1 % 2 == 1),
        }
    }
}

// A byte for the host to read, from this device.
pub fn put_from(s: &mut State, device: Device, byte: u8)
    ensures { KeptChange (lift (devices.put_from device byte)) s.old s.new }
{
    let flags = s[FLAGS];
    s[FLAGS] = with_output(flags, true, device == Device::Mouse);
    s[OUTPUT] = byte;
}

// The same from the keyboard, and as the keyboard's of the controller itself.
pub fn put(s: &mut State, byte: u8)
    ensures { KeptChange (lift (lines.put byte)) s.old s.new }
{
    put_from(s, Device::Keyboard, byte);
}

// A cell of the RAM put, unless it is 0.
pub fn put_cell(s: &mut State, k: u8)
    ensures { KeptChange (lift (lines.put_cell k)) s.old s.new }
{
    let byte = cell(s, k);
    if byte != 0 {
        put(s, byte);
    }
}
