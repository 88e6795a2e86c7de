// What a command byte written to port 64h is: whether it acts under the settings of the start, the pending code and the cell that it leaves, the
// lines that it pulses.
ghost use Rattle.std.specs.Prelude.{◌≡◌, ◌&&◌};
ghost use Rattle.machine.specs.Lines.{at_mode};
ghost use Rattle.machine.specs.Commands as command;
ghost use Rattle.machine.specs.SecondSet as second;
ghost use Rattle.state.specs.View.{public};
ghost use Rattle.decoding.specs.Promises.{CommandDecoded, heard};

use lines::lines::{at_mode, second_set};
use state::state::State;
use translation::bits::{nibble, within};

// A command of PS/2 mode alone.
fn ps2_only(c: u8) -> bool
    ensures { result ≡ command.ps2_only c }
{
    within(0xA4, 0xA9, c) | (within(0xC1, 0xC2, c) | within(0xD2, 0xD4, c))
}

// A command that the mode of the start does not have.
fn not_in_mode(s: &State, c: u8) -> bool
    ensures { result ≡ (at_mode (public s.now) && command.ps2_only c) }
{
    if at_mode(s) { ps2_only(c) } else { false }
}

// A command that only the second set has.
fn second_only(c: u8) -> bool
    ensures { result ≡ second.second_only c }
{
    match c {
        0x90..=0x9F | 0xA1 | 0xAF..=0xBF | 0xC8..=0xCA | 0xE1..=0xEF => true,
        _ => false,
    }
}

// A command that the set of the start does not have. Those that load a lock code and lock are the first set's.
fn not_in_set(s: &State, c: u8) -> bool
    ensures { result ≡ command.not_in_set (public s.now).settings c }
{
    if second_set(s) {
        within(0xA5, 0xA6, c)
    } else {
        second_only(c)
    }
}

// The command as it is looked up and acted on. With ordinary settings that is the byte itself: what only the second set has is looked up as nothing,
// and asks for the set before it acts. Otherwise it is 00h, which does nothing, for one that mode or set leaves out.
fn heard(s: &State, c: u8) -> u8
    ensures { result ≡ heard (public s.now).settings c }
{
    if !at_mode(s) & !second_set(s) {
        return c;
    }
    if not_in_mode(s, c) {
        return 0;
    }
    if not_in_set(s, c) { 0 } else { c }
}

// The pending code that each command byte leaves. Document 01 asks for this table and numbers the codes: the state and an image hold the number.
const PENDING_CODES: [u8; 256] = [
    // 00h
    0, 0, 0, 0, 0, 0, 0, 0, 0, 0, 0, 0, 0, 0, 0, 0,
    // 10h
    0, 0, 0, 0, 0, 0, 0, 0, 0, 0, 0, 0, 0, 0, 0, 0,
    // 20h
    0, 0, 0, 0, 0, 0, 0, 0, 0, 0, 0, 0, 0, 0, 0, 0,
    // 30h
    0, 0, 0, 0, 0, 0, 0, 0, 0, 0, 0, 0, 0, 0, 0, 0,
    // 40h
    0, 0, 0, 0, 0, 0, 0, 0, 0, 0, 0, 0, 0, 0, 0, 0,
    // 50h
    0, 0, 0, 0, 0, 0, 0, 0, 0, 0, 0, 0, 0, 0, 0, 0,
    // 60h
    1, 2, 2, 2, 2, 2, 2, 2, 2, 2, 2, 2, 2, 2, 2, 2,
    // 70h
    2, 2, 2, 2, 2, 2, 2, 2, 2, 2, 2, 2, 2, 2, 2, 2,
    // 80h
    0, 0, 0, 0, 0, 0, 0, 0, 0, 0, 0, 0, 0, 0, 0, 0,
    // 90h
    0, 0, 0, 0, 0, 0, 0, 0, 0, 0, 0, 0, 0, 0, 0, 0,
    // A0h
    0, 0, 0, 0, 0, 3, 0, 0, 0, 0, 0, 0, 0, 0, 0, 0,
    // B0h
    0, 0, 0, 0, 0, 0, 0, 0, 0, 0, 0, 0, 0, 0, 0, 0,
    // C0h
    0, 0, 0, 0, 0, 0, 0, 0, 0, 0, 0, 0, 0, 0, 0, 0,
    // D0h
    0, 4, 5, 6, 7, 0, 0, 0, 0, 0, 0, 0, 0, 0, 0, 0,
    // E0h
    0, 0, 0, 0, 0, 0, 0, 0, 0, 0, 0, 0, 0, 0, 0, 0,
    // F0h
    0, 0, 0, 0, 0, 0, 0, 0, 0, 0, 0, 0, 0, 0, 0, 0,
];

// The pending code that a command leaves.
fn pending_of(c: u8) -> u8
    ensures { result ≡ command.pending_of c }
{
    PENDING_CODES[c as usize]
}

// The cell that 61h-7Fh name, else 0.
fn cell_named(c: u8) -> u8
    ensures { result ≡ command.cell_named c }
{
    if within(0x61, 0x7F, c) { c % 32 } else { 0 }
}

// The lines of the output port that a command pulses, as a mask.
fn pulse_of(s: &State, c: u8) -> u8
    ensures { result ≡ command.pulse_of (public s.now).settings c }
{
    if 0xF0 <= c {
        let four_lines = at_mode(s);
        nibble(
            c / 1 % 2 != 1,
            c / 2 % 2 != 1,
            four_lines & (c / 4 % 2 != 1),
            four_lines & (c / 8 % 2 != 1),
        )
    } else {
        0
    }
}

// A command byte decoded under the settings of the start: the command as it acts, the pending code and the cell that it leaves, and the lines that it
// pulses.
#[derive(Clone, Copy)]
pub struct Decoded {
    pub command: u8,
    pub pending: u8,
    pub cell: u8,
    pub pulse: u8,
}

pub fn decode(s: &State, c: u8) -> Decoded
    ensures { CommandDecoded (public s.now).settings c result }
{
    let pulse = pulse_of(s, c);
    let known = heard(s, c);
    Decoded {
        command: known,
        pending: pending_of(known),
        cell: cell_named(known),
        pulse,
    }
}
