// A list of events: each writes its nine answer bytes, and the rest of the answer buffer is lent to the next.
// List and buffer are two slices in each call, as C lends them, and a count is what C gets: a struct of them would be made to be taken apart. One event
// alone pays for no recursion.
ghost use Rattle.std.specs.Prelude.{◌≡◌, ℕ, ◌≤◌, ◌<◌, length};
ghost use Rattle.refusals.specs.Numbers.{outcome};
ghost use Rattle.translation.specs.KeyTable.{built_in};
ghost use Rattle.machine.specs.Settings.{settings_of};
ghost use Rattle.machine.specs.Events as events;
ghost use Rattle.machine.specs.Run.{first, length_refusal};
ghost use Rattle.state.specs.View.{public};
ghost use Rattle.controller.specs.Promises.{EventAnswered, FittingRun, ListRun, FreshRun, TableRun, CountedRun, counted};
ghost use Rattle.controller.specs.Steps.{EventWritten};

use crate::events::{lines, respond};
use refusals::refusal::Refusal;
use state::event::Value;
use state::state::{Setup, State, start, start_with_table};

// The longest list that a call takes, in bytes.
const LIST_MOST: usize = 21000;

// The most that one recursion runs: 500 events, in bytes of the list and of their answers.
const PIECE: usize = 1500;

const PIECE_ANSWERS: usize = 4500;

// The first event of a list, and its answer at the front of the buffer.
fn run_one(s: &mut State, list: &[u8], answers: &mut [u8])
    requires { (3 ≤ length list.now) × (9 ≤ length answers.old) }
    ensures { EventWritten s.old (first list.now) answers.old s.new answers.new }
{
    let value = Value {
        low: list[1],
        high: list[2],
    };
    if let Some(answer) = answers.first_chunk_mut() {
        respond(s, list[0], value, answer);
    }
}

// Four events make a level of the recursion, so that its test and its call cost each of them a quarter. One function for all four would test at each event,
// and a const parameter cannot count down. Each lends the rest of list and buffer on.
#[cycle(run_fours)]
fn run_first(s: &mut State, list: &[u8], answers: &mut [u8])
    requires { (12 ≤ length list.now) × (36 ≤ length answers.old) }
    ensures { FittingRun s.old list.now answers.old s.new answers.new }
{
    run_one(s, list, answers);
    run_second(s, &list[3..], &mut answers[9..]);
}

#[cycle(run_fours)]
fn run_second(s: &mut State, list: &[u8], answers: &mut [u8])
    requires { (9 ≤ length list.now) × (27 ≤ length answers.old) }
    ensures { FittingRun s.old list.now answers.old s.new answers.new }
{
    run_one(s, list, answers);
    run_third(s, &list[3..], &mut answers[9..]);
}

#[cycle(run_fours)]
fn run_third(s: &mut State, list: &[u8], answers: &mut [u8])
    requires { (6 ≤ length list.now) × (18 ≤ length answers.old) }
    ensures { FittingRun s.old list.now answers.old s.new answers.new }
{
    run_one(s, list, answers);
    run_fourth(s, &list[3..], &mut answers[9..]);
}

#[cycle(run_fours)]
fn run_fourth(s: &mut State, list: &[u8], answers: &mut [u8])
    requires { (3 ≤ length list.now) × (9 ≤ length answers.old) }
    ensures { FittingRun s.old list.now answers.old s.new answers.new }
{
    run_one(s, list, answers);
    run_on(s, &list[3..], &mut answers[9..]);
}

// What is left: four events, where there are so many and room for their answers, else one.
#[cycle(run_fours)]
fn run_on(s: &mut State, list: &[u8], answers: &mut [u8])
    ensures { FittingRun s.old list.now answers.old s.new answers.new }
{
    if (12 <= list.len()) & (36 <= answers.len()) {
        run_first(s, list, answers);
        return;
    }
    if (3 <= list.len()) & (9 <= answers.len()) {
        run_fourth(s, list, answers);
    }
}

// A list of one event, with no recursion.
fn run_last(s: &mut State, list: &[u8], answers: &mut [u8])
    requires { length list.now < 6 }
    ensures { FittingRun s.old list.now answers.old s.new answers.new }
{
    if (3 <= list.len()) & (9 <= answers.len()) {
        run_one(s, list, answers);
    }
}

// A list of any length, as far as the buffer has room: in pieces, so that the stack is never more than one of them needs. The buffer is lent from a piece's
// answers on, and not in chunks: of what `chunks_mut` lent, only the length is known afterwards.
pub fn run_fitting(s: &mut State, list: &[u8], answers: &mut [u8])
    ensures { FittingRun s.old list.now answers.old s.new answers.new }
{
    if list.len() < 6 {
        run_last(s, list, answers);
        return;
    }
    let pieces = answers.len() / PIECE_ANSWERS + 1;
    for (turn, events) in (0..pieces).zip(list.chunks(PIECE)) {
        run_on(s, events, &mut answers[turn * PIECE_ANSWERS..]);
    }
}

// One event from any state, and its nine answer bytes.
pub fn event(s: &mut State, kind: u8, value: Value, answer: &mut [u8; 9])
    ensures { EventAnswered s.old (events.event kind value.low value.high) s.new answer.new }
{
    respond(s, kind, value, answer);
}

// What the lines show with no event.
#[tactic(auto, unfolding(machine::specs::Events::lines))]
pub fn show_lines(s: &State, answer: &mut [u8; 9])
    ensures { answer.new ≡ events.standing (public s.now) }
{
    let [status, port, pulse, to, low, high] = lines(s, 0);
    *answer = [0, 0, 0, status, port, pulse, to, low, high];
}

// The checks of a whole call.
#[tactic(auto, unfolding(machine::specs::Run::length_refusal))]
pub fn check_list(list: usize, space: usize) -> Result<(), Refusal>
    ensures { outcome result ≡ length_refusal list space }
{
    if list % 3 != 0 {
        return Err(Refusal::ListLength);
    }
    if LIST_MOST < list {
        return Err(Refusal::ListLength);
    }
    if space < list * 3 {
        return Err(Refusal::AnswerSpace);
    }
    Ok(())
}

// A list of at most 7,000 events, each answered; refused, nothing is done.
pub fn run(s: &mut State, list: &[u8], answers: &mut [u8]) -> Result<(), Refusal>
    ensures { ListRun s.old list.now answers.old (outcome result) s.new answers.new }
{
    check_list(list.len(), answers.len())?;
    run_fitting(s, list, answers);
    Ok(())
}

// Runs a list from a start with the built-in key table; the state is not kept.
pub fn run_fresh(setup: Setup, list: &[u8], answers: &mut [u8]) -> Result<(), Refusal>
    ensures { FreshRun (settings_of setup.options setup.version built_in) list.now answers.old answers.new (outcome result) }
{
    let mut s = start(setup);
    run(&mut s, list, answers)
}

// The same with a key table of the caller's, whose checks come before the list's.
pub fn run_with_table(
    setup: Setup,
    table: &[u8],
    list: &[u8],
    answers: &mut [u8],
) -> Result<(), Refusal>
    ensures { TableRun setup.options setup.version table.now list.now answers.old answers.new (outcome result) }
{
    let mut s = [0u8; 321];
    start_with_table(&mut s, setup, table)?;
    run(&mut s, list, answers)
}

// As many events of a list as the buffer has room for, and how many these are; refused is a list that ends within an event.
pub fn run_counted(s: &mut State, list: &[u8], answers: &mut [u8]) -> Result<usize, Refusal>
    ensures { (count : ℕ) → CountedRun s.old list.now answers.old count (outcome result) s.new answers.new (counted count result) }
{
    if list.len() % 3 != 0 {
        return Err(Refusal::ListLength);
    }
    let count = (answers.len() / 9).min(list.len() / 3);
    run_fitting(s, list, answers);
    Ok(count)
}
