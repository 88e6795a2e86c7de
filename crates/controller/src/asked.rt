// What can be asked of a state without an event. Nothing changes.
// Users of the controller have this crate alone, so it hands on what the lines and the checks say.
ghost use Rattle.std.specs.Prelude.{◌≡◌, false};
ghost use Rattle.machine.specs.Lines as lines;
ghost use Rattle.state.specs.View.{options_of, public};

use state::state::{OPTIONS, State, VERSION};
use translation::bits::nibble;

// The status, which a host reads at port 64h.
pub fn status(s: &State) -> u8
    ensures { result ≡ lines.status (public s.now) }
{
    lines::lines::status(s)
}

pub fn locked(s: &State) -> bool
    ensures { result ≡ (public s.now).locked }
{
    lines::lines::locked(s)
}

// The options of the start, as a byte that names them.
pub fn options(s: &State) -> u8
    ensures { result ≡ options_of (public s.now).settings false }
{
    nibble(
        s[OPTIONS] / 1 % 2 == 1,
        s[OPTIONS] / 2 % 2 == 1,
        s[OPTIONS] / 4 % 2 == 1,
        false,
    )
}

// The version byte of the start.
pub fn version(s: &State) -> u8
    ensures { result ≡ (public s.now).settings.version }
{
    s[VERSION]
}
