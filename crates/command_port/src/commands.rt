// Kind 3, a command byte written to port 64h. It is data of the wire, and its pending code the number that the state and an image hold: so both are
// matched as they are. The lock is set here and opened in `keyboard`: one public function for both could lock without a code, which a body rule
// forbids.
ghost use Rattle.std.specs.Prelude.{◌≡◌, ◌%◌};
ghost use Rattle.machine.specs.State.{with_host, after_command, lift};
ghost use Rattle.machine.specs.Commands as command;
ghost use Rattle.machine.specs.Events.{event};
ghost use Rattle.state.specs.View.{public, view};
ghost use Rattle.state.specs.Changed.{Changed};
ghost use Rattle.state.specs.Told.{EventTold, own};
ghost use Rattle.command_port.specs.Promises.{ChangedBySet};

use checks::host::check_write;
use decoding::commands::decode;
use lines::device::Device;
use lines::lines::{
    at_mode, cell, input_port, keyboard_off, mode, mouse_off, output_port, put, put_cell,
    second_set,
};
use lines::mode::{disable, enable, set_mode};
use refusals::refusal::Refusal;
use state::code::drop_code;
use state::event::Value;
use state::flags::{with_command, with_locked};
use state::state::{CELL, FLAGS, LENGTH, NIBBLE, OVERLAY, PENDING, POSITION, State};
use state::told::Told;
use translation::bits::nibble;
use vt82c42::second_set::second_command;

// The command flag is set, the overlay ends, and the pending code and its cell are the command's own.
fn command_written(s: &mut State, pending: u8, cell: u8)
    ensures { Changed (lift (λ p. with_host p (after_command pending cell))) s.old s.new }
{
    let flags = s[FLAGS];
    s[FLAGS] = with_command(flags, true);
    s[PENDING] = pending;
    s[CELL] = cell;
    s[OVERLAY] = 0;
    s[NIBBLE] = 0;
}

// A load that a command cuts short leaves no code.
fn cut_load(s: &mut State)
    ensures { Changed command.load_cut s.old s.new }
{
    if s[PENDING] == 3 {
        drop_code(s);
    }
}

// Bits 4-7 of the status are replaced until the next command.
fn overlay(s: &mut State, n: u8)
    ensures { Changed (lift (command.overlaid n)) s.old s.new }
{
    s[OVERLAY] = 1;
    s[NIBBLE] = n;
}

// The self-test switches both devices on, sets SYS and reports success.
fn self_test(s: &mut State)
    ensures { Changed (lift command.self_tested) s.old s.new }
{
    enable(s, Device::Keyboard);
    enable(s, Device::Mouse);
    let n = mode(s);
    set_mode(s, n - n / 4 % 2 * 4 + 4);
    put(s, 0x55);
}

// The test inputs: which devices are not off. In AT mode the keyboard's is bit 1, and bit 0 is 1.
fn test_inputs(s: &State) -> u8
    ensures { result ≡ command.test_inputs (public s.now) }
{
    if at_mode(s) {
        nibble(true, !keyboard_off(s), false, false)
    } else {
        nibble(!keyboard_off(s), !mouse_off(s), false, false)
    }
}

// The commands that put a byte of the controller's: each is one of document 01's table, with a rule of its own.
fn put_test_inputs(s: &mut State)
    ensures { Changed (lift command.test_inputs_put) s.old s.new }
{
    let inputs = test_inputs(s);
    put(s, inputs);
}

fn put_output_port(s: &mut State)
    ensures { Changed (lift command.output_port_put) s.old s.new }
{
    let port = output_port(s);
    put(s, port);
}

fn put_named_cell(s: &mut State, c: u8)
    ensures { Changed (lift (command.named_cell_put (c % 32))) s.old s.new }
{
    let byte = cell(s, c % 32);
    put(s, byte);
}

fn put_input_port(s: &mut State)
    ensures { Changed (lift command.input_port_put) s.old s.new }
{
    let port = input_port(s);
    put(s, port);
}

// A nibble of the input port as an overlay stores it: with the second set without its bit 0.
fn polled(s: &State, n: u8) -> u8
    ensures { result ≡ command.polled n (public s.now) }
{
    if second_set(s) { n - n % 2 } else { n }
}

// That nibble over the status.
fn show_lines(s: &mut State, n: u8)
    ensures { Changed (lift (λ p. command.overlaid (command.polled n p) p)) s.old s.new }
{
    let shown = polled(s, n);
    overlay(s, shown);
}

// The commands that concern the public part alone. The last arm asks for the set.
fn plain_command(s: &mut State, c: u8)
    ensures { ChangedBySet c (lift (command.plain_command c)) s.old s.new }
{
    match c {
        0x20..=0x3F => put_named_cell(s, c),
        0xA7 => disable(s, Device::Mouse),
        0xA8 => enable(s, Device::Mouse),
        0xA9 | 0xAB => put(s, 0),
        0xAA => self_test(s),
        0xAD => disable(s, Device::Keyboard),
        0xAE => enable(s, Device::Keyboard),
        0xC0 => put_input_port(s),
        0xC1 => {
            let port = input_port(s);
            show_lines(s, port % 16);
        }
        0xC2 => {
            let port = input_port(s);
            show_lines(s, port / 16);
        }
        0xD0 => put_output_port(s),
        0xE0 => put_test_inputs(s),
        _ => second_command(s, c),
    }
}

// A lock code has been loaded.
fn has_code(s: &State) -> bool
    ensures { result ≡ command.has_code (view s.now) }
{
    s[LENGTH] != 0
}

// A4h: is there a lock code? With the second set there is none.
fn ask_code(s: &mut State)
    ensures { Changed command.code_asked s.old s.new }
{
    if has_code(s) & !second_set(s) {
        put(s, 0xFA);
    } else {
        put(s, 0xF1);
    }
}

// Locked, with nothing typed yet.
fn set_lock(s: &mut State)
    ensures { Changed command.lock_set s.old s.new }
{
    let flags = s[FLAGS];
    s[FLAGS] = with_locked(flags, true);
    s[POSITION] = 0;
}

// A6h: locked, where there is a code.
fn lock_command(s: &mut State)
    ensures { Changed command.lock_command s.old s.new }
{
    if has_code(s) {
        set_lock(s);
        put_cell(s, 0x13);
    }
}

// What a command does.
fn act(s: &mut State, c: u8)
    ensures { ChangedBySet c (command.acts c) s.old s.new }
{
    match c {
        0xA4 => ask_code(s),
        0xA5 => drop_code(s),
        0xA6 => lock_command(s),
        _ => plain_command(s, c),
    }
}

pub fn command_event(s: &mut State, value: Value) -> Result<Told, Refusal>
    ensures { EventTold s.old (event 3 value.low value.high) s.new (own result) }
{
    check_write(s, value)?;
    cut_load(s);
    let decoded = decode(s, value.low);
    command_written(s, decoded.pending, decoded.cell);
    act(s, decoded.command);
    Ok(Told {
        pulse: decoded.pulse,
        ..Told::default()
    })
}
