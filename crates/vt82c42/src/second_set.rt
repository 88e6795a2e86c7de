// The second command set, the VT82C42's: what its own commands do. A command byte names its line by its own low bits, so a line is a number or its bit
// here, and each command is matched as it is: an enum of the eight lines would be read from that number and looked at once.
ghost use Rattle.std.specs.Prelude.{cond, ◌%◌, leb};
ghost use Rattle.machine.specs.State.{lift};
ghost use Rattle.machine.specs.Lines.{second_set};
ghost use Rattle.machine.specs.DataPort as port;
ghost use Rattle.machine.specs.SecondSet as second;
ghost use Rattle.state.specs.Changed.{Changed, KeptChange};

use lines::lines::{at_mode, put, second_set};
use state::state::{HIGH_LATCHES, INPUT_LATCHES, LATCHES, OPTIONS, State, VERSION};
use translation::bits::{nibble, weight, within};

// The latches of P10-P15.
fn latch_inputs(s: &mut State, n: u8)
    ensures { Changed (lift (second.input_latched n)) s.old s.new }
{
    s[INPUT_LATCHES] = n;
}

// 9xh: the low nibble to P13-P10.
fn write_low_lines(s: &mut State, c: u8)
    ensures { Changed (lift (second.low_lines_written c)) s.old s.new }
{
    let old = s[INPUT_LATCHES];
    latch_inputs(s, (old & 0x30) | (c % 16));
}

// The latch of P1 whose weight in the byte is w.
fn latch_input(s: &mut State, w: u8, on: bool)
    ensures { Changed (lift (second.input_line_written w on)) s.old s.new }
{
    let old = s[INPUT_LATCHES];
    if on {
        latch_inputs(s, old | w);
    } else {
        latch_inputs(s, old & (0xFF - w));
    }
}

// P22 and P23 written, P25 as it was.
fn latch_high(s: &mut State, p22: bool, p23: bool)
    ensures { Changed (lift (λ p. port.high_latched p22 p23 p.ports.p25 p)) s.old s.new }
{
    let old = s[HIGH_LATCHES];
    s[HIGH_LATCHES] = nibble(p22, p23, false, old / 8 % 2 == 1);
}

// B0h-B7h write 0 and B8h-BFh 1 to P10-P13, P22, P23, P14, P15.
fn write_line(s: &mut State, c: u8)
    ensures { Changed (lift (second.line_written (c % 8) (leb 0xB8 c))) s.old s.new }
{
    let on = 0xB8 <= c;
    let line = c % 8;
    let high = s[HIGH_LATCHES];
    match line {
        0 => latch_input(s, 1, on),
        1 => latch_input(s, 2, on),
        2 => latch_input(s, 4, on),
        3 => latch_input(s, 8, on),
        4 => latch_high(s, on, high / 2 % 2 == 1),
        5 => latch_high(s, high / 1 % 2 == 1, on),
        6 => latch_input(s, 16, on),
        _ => latch_input(s, 32, on),
    }
}

// C8h and C9h: whether D1h may write P22 and P23.
fn permit(s: &mut State, on: bool)
    ensures { Changed (lift (second.permitted on)) s.old s.new }
{
    let old = s[OPTIONS];
    s[OPTIONS] = nibble(old / 1 % 2 == 1, old / 2 % 2 == 1, old / 4 % 2 == 1, on);
}

// E1h-EFh: P23-P21 are bits 3-1.
fn set_output_lines(s: &mut State, c: u8)
    ensures { Changed (lift (second.output_lines_set c)) s.old s.new }
{
    let low = s[LATCHES];
    let high = s[HIGH_LATCHES];
    s[LATCHES] = nibble(low / 1 % 2 == 1, c / 2 % 2 == 1, false, false);
    s[HIGH_LATCHES] = nibble(c / 4 % 2 == 1, c / 8 % 2 == 1, false, high / 8 % 2 == 1);
}

fn put_version(s: &mut State)
    ensures { Changed (lift second.version_put) s.old s.new }
{
    let version = s[VERSION];
    put(s, version);
}

// CAh: 1 in PS/2 mode, 0 in AT mode.
fn report_mode(s: &mut State)
    ensures { Changed (lift second.mode_reported) s.old s.new }
{
    let ps2 = weight(1, !at_mode(s));
    put(s, ps2);
}

// The commands that stand alone.
fn single_command(s: &mut State, c: u8)
    ensures { Changed (lift (second.single_command c)) s.old s.new }
{
    match c {
        0xA1 | 0xAF => put_version(s),
        0xC8 => permit(s, true),
        0xC9 => permit(s, false),
        0xCA => report_mode(s),
        _ => {}
    }
}

// Any other command does nothing.
fn own_command(s: &mut State, c: u8)
    ensures { Changed (lift (second.second_command c)) s.old s.new }
{
    if within(0x90, 0x9F, c) {
        write_low_lines(s, c);
    } else if within(0xB0, 0xBF, c) {
        write_line(s, c);
    } else if within(0xE1, 0xEF, c) {
        set_output_lines(s, c);
    } else {
        single_command(s, c);
    }
}

// A command of the second set's own; with the first set nothing is done.
pub fn second_command(s: &mut State, c: u8)
    ensures { KeptChange (lift (λ p. cond (second_set p) (second.second_command c p) p)) s.old s.new }
{
    if second_set(s) {
        own_command(s, c);
    }
}
