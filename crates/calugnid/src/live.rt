// A live controller: one port access, frame or pin change at a time, on a state that the caller holds.
ghost use Rattle.std.specs.Prelude.{◌≡◌};
ghost use Rattle.translation.specs.KeyTable.{built_in};
ghost use Rattle.machine.specs.Settings.{settings_of};
ghost use Rattle.machine.specs.State.{fresh};
ghost use Rattle.machine.specs.Events as events;
ghost use Rattle.state.specs.View.{public, state_of};
ghost use Rattle.controller.specs.Promises.{EventAnswered, ListRun, CountedRun};
ghost use Rattle.calugnid.specs.Values.{event_of};

use controller::events::{check_event, sent_byte};
use controller::run::{event, run, run_counted, show_lines};
use refusals::refusal::number_of;
use state::event::Value;
use state::state::{Setup, State, start};

// A controller after power-on, with the settings that the options name, a version byte and the built-in key table.
#[unsafe(no_mangle)]
pub extern "C" fn calugnid_start(state: &mut State, options: u8, version: u8)
    ensures { state.new ≡ state_of (fresh (settings_of options version built_in)) }
{
    *state = start(Setup { options, version });
}

// One event, and its nine answer bytes.
#[unsafe(no_mangle)]
pub extern "C" fn calugnid_event(state: &mut State, kind: u8, value: u16, answer: &mut [u8; 9])
    ensures { EventAnswered state.old (event_of kind value) state.new answer.new }
{
    event(state, kind, value.into(), answer);
}

// The number of the check that would refuse an event, 0 for none. Nothing changes.
#[unsafe(no_mangle)]
pub extern "C" fn calugnid_refusal(state: &State, kind: u8, value: u16) -> u8
    ensures { result ≡ events.refusal (public state.now) (event_of kind value) }
{
    number_of(check_event(state, kind, value.into()))
}

// What the lines show with no event, in the nine bytes of an answer.
#[unsafe(no_mangle)]
pub extern "C" fn calugnid_lines(state: &State, answer: &mut [u8; 9])
    ensures { answer.new ≡ events.standing (public state.now) }
{
    show_lines(state, answer);
}

// The byte being sent, or 0 if nothing is being sent.
#[unsafe(no_mangle)]
pub extern "C" fn calugnid_sent_byte(state: &State) -> u8
    ensures { result ≡ (public state.now).sending.byte }
{
    sent_byte(state)
}

// A list of at most 7,000 events: 0, or the number that refuses it.
#[unsafe(no_mangle)]
pub extern "C" fn calugnid_run_state(state: &mut State, list: &[u8], answers: &mut [u8]) -> u8
    ensures { ListRun state.old list.now answers.old result state.new answers.new }
{
    number_of(run(state, list, answers))
}

// As many events of a list of any length as the answers have room for, and how many these are: 0, or 7 for a list that ends within an event.
#[unsafe(no_mangle)]
pub extern "C" fn calugnid_run_fitting(
    state: &mut State,
    list: &[u8],
    answers: &mut [u8],
    count: &mut usize,
) -> u8
    ensures { CountedRun state.old list.now answers.old count.old result state.new answers.new count.new }
{
    match run_counted(state, list, answers) {
        Ok(done) => {
            *count = done;
            0
        }
        Err(refusal) => refusal.into(),
    }
}
