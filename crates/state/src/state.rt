// The controller's state: bytes that a run changes in place. The first 64 are those of a saved image's body; the version byte and the key table,
// which are in no image, stand behind them.
ghost use Rattle.std.specs.Prelude.{◌≡◌, ◌++◌, length, take};
ghost use Rattle.refusals.specs.Numbers.{outcome};
ghost use Rattle.translation.specs.KeyTable.{built_in};
ghost use Rattle.machine.specs.Settings.{settings_of};
ghost use Rattle.machine.specs.State.{fresh};
ghost use Rattle.state.specs.View.{state_length, state_of, view};
ghost use Rattle.state.specs.Started.{Started, TableStarted};

use refusals::refusal::Refusal;
use translation::bits::nibble;
use translation::key_table::{built_in, check_table};

// C holds a state as bytes, its first 64 are an image's, and every value of them has an answer: so it is no struct with fields, a flag may stand
// beside the byte that it is of, and contracts see it by `view` and `public`. What changes it is a function by the name of a rule: one that stores any
// byte at any place would promise bytes, and no rule.
pub type State = [u8; 321];

// The output byte, which the host reads at port 60h.
pub const OUTPUT: usize = 0;

// Seven flags, a bit each.
pub const FLAGS: usize = 1;

// Input port pins, and the latches of P20 and P21 in bits 0 and 1.
pub const PINS: usize = 2;

pub const LATCHES: usize = 3;

// The pending code, the cell of code 2, and the status overlay with its nibble.
pub const PENDING: usize = 4;

pub const CELL: usize = 5;

pub const OVERLAY: usize = 6;

pub const NIBBLE: usize = 7;

// The byte being sent: to nobody (0), the keyboard (1) or the mouse (2).
pub const SENT_TO: usize = 8;

pub const SENT: usize = 9;

// How long the lock code is, how many of its first bytes the keys typed end with, and its bytes.
pub const LENGTH: usize = 10;

pub const POSITION: usize = 11;

pub const CODE: usize = 12;

// The RAM; its cell 0 is the mode byte.
pub const RAM: usize = 28;

pub const MODE: usize = 28;

// The options of the start, which no event changes: mouse lock in bit 0, AT mode in bit 1, the second command set in bit 2. Bit 3 is 1 while D1h
// may write P22 and P23 with that set.
pub const OPTIONS: usize = 60;

// The latches of P10-P15 in bits 0-5.
pub const INPUT_LATCHES: usize = 61;

// The latches of P22, P23 and P25 in bits 0, 1 and 3.
pub const HIGH_LATCHES: usize = 62;

// The transmit time-out in bit 0.
pub const TTIM: usize = 63;

// The version byte, which no event changes.
pub const VERSION: usize = 64;

// The key table, which no event changes.
pub const TABLE: usize = 65;

// What a start names beside the key table: its options and its version byte. With the mouse lock (options bit 0) the key switch keeps the mouse from the
// host as well. AT mode (bit 1) has no mouse and no lock code. The second command set (bit 2) is the VT82C42's; its firmware can ask for the version byte.
#[derive(Clone, Copy)]
pub struct Setup {
    pub options: u8,
    pub version: u8,
}

// A controller after power-on.
fn started(setup: Setup, table: &[u8]) -> State
    requires { length table.now ≡ 256 }
    ensures { let x = settings_of setup.options setup.version table.now in (result ≡ state_of (fresh x)) × (view result ≡ fresh x) }
{
    let mut s = [0u8; 321];
    s[PINS] = 0xFF;
    s[LATCHES] = 3;
    s[MODE] = 0x70;
    s[OPTIONS] = nibble(
        setup.options / 1 % 2 == 1,
        setup.options / 2 % 2 == 1,
        setup.options / 4 % 2 == 1,
        false,
    );
    s[INPUT_LATCHES] = 0x3F;
    s[HIGH_LATCHES] = 3;
    s[VERSION] = setup.version;
    s[TABLE..].copy_from_slice(table);
    s
}

// A controller after power-on, with the built-in key table. It cannot fail, since that table needs no check.
pub fn start(setup: Setup) -> State
    ensures { Started (settings_of setup.options setup.version built_in) result }
{
    started(setup, &built_in())
}

// The same with a key table of the caller's; refused, the state is as it was.
pub fn start_with_table(s: &mut State, setup: Setup, table: &[u8]) -> Result<(), Refusal>
    ensures { TableStarted setup.options setup.version table.now s.old (outcome result) s.new }
{
    check_table(table)?;
    *s = started(setup, table);
    Ok(())
}
