// The flags of the state, seven bits in a byte: one or two of them replaced, the others kept. Bit 7, which is no flag, stays as it was.
// Each replaces what one rule names, and its caller stores the byte: with the bit as a parameter a contract would name no rule.
ghost use Rattle.state.specs.Flags as flags;
ghost use Rattle.state.specs.Flags.{flags_of, Reflagged};

use translation::bits::weight;

// OBF and mouse source.
pub fn with_output(f: u8, full: bool, mouse: bool) -> u8
    ensures { Reflagged (flags.with_output full mouse (flags_of f)) f result }
{
    f / 4 * 4 + weight(1, full) + weight(2, mouse)
}

pub fn with_command(f: u8, on: bool) -> u8
    ensures { Reflagged (flags.with_command on (flags_of f)) f result }
{
    f / 8 * 8 + f % 4 + weight(4, on)
}

pub fn with_errors(f: u8, terr: bool, perr: bool) -> u8
    ensures { Reflagged (flags.with_errors terr perr (flags_of f)) f result }
{
    f / 32 * 32 + f % 8 + weight(8, terr) + weight(16, perr)
}

pub fn with_breaks(f: u8, on: bool) -> u8
    ensures { Reflagged (flags.with_breaks on (flags_of f)) f result }
{
    f / 64 * 64 + f % 32 + weight(32, on)
}

pub fn with_locked(f: u8, on: bool) -> u8
    ensures { Reflagged (flags.with_locked on (flags_of f)) f result }
{
    f / 128 * 128 + f % 64 + weight(64, on)
}
