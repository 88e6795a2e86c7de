// Questions about a state, and about the library itself. Nothing changes.
ghost use Rattle.std.specs.Prelude.{◌≡◌, false, ℕ, ◌≤◌, eqb};
ghost use Rattle.machine.specs.Events as events;
ghost use Rattle.machine.specs.Lines as lines;
ghost use Rattle.state.specs.View.{options_of, public, state_length};
ghost use Rattle.calugnid.specs.Values.{event_of, library_version};

use controller::asked::{locked, options, status, version};
use controller::events::check_event;
use state::event::Value;
use state::state::State;

// The status, which a host reads at port 64h.
#[unsafe(no_mangle)]
pub extern "C" fn calugnid_status(state: &State) -> u8
    ensures { result ≡ lines.status (public state.now) }
{
    status(state)
}

// Whether an event of this kind would be accepted, with any value up to the largest that the kind takes.
#[unsafe(no_mangle)]
pub extern "C" fn calugnid_ready(state: &State, kind: u8) -> bool
    ensures { (value : ℕ) → value ≤ events.limit kind → result ≡ eqb (events.refusal (public state.now) (event_of kind value)) 0 }
{
    check_event(state, kind, Value::from(0)).is_ok()
}

// Whether the controller is locked.
#[unsafe(no_mangle)]
pub extern "C" fn calugnid_locked(state: &State) -> bool
    ensures { result ≡ (public state.now).locked }
{
    locked(state)
}

// The options of the start, less the bits that are not looked at.
#[unsafe(no_mangle)]
pub extern "C" fn calugnid_options(state: &State) -> u8
    ensures { result ≡ options_of (public state.now).settings false }
{
    options(state)
}

// The version byte of the start.
#[unsafe(no_mangle)]
pub extern "C" fn calugnid_version_byte(state: &State) -> u8
    ensures { result ≡ (public state.now).settings.version }
{
    version(state)
}

// What the header has as CALUGNID_VERSION.
const LIBRARY_VERSION: u32 = 3;

// The version of the library.
#[unsafe(no_mangle)]
pub extern "C" fn calugnid_library_version() -> u32
    ensures { result ≡ library_version }
{
    LIBRARY_VERSION
}

// How many bytes a state has.
#[unsafe(no_mangle)]
pub extern "C" fn calugnid_state_bytes() -> usize
    ensures { result ≡ state_length }
{
    321
}
