// Two lists of events, each run by a controller of its own into a buffer of its own. Both are started with the same settings and key table; the table
// is checked first, and where a check refuses it neither list is run. The theorem is carried to either kind of call by a function of its own, since
// each promises something else; each list stands before its own buffer, as the calls have them.
ghost use Rattle.refusals.specs.Numbers.{outcome};
ghost use Rattle.secrecy.specs.Compared.{ListsCompared, FittingCompared};

use controller::run::{run_fitting, run_with_table};
use refusals::refusal::Refusal;
use state::state::{Setup, start_with_table};

// What the two calls answer.
#[derive(Clone, Copy)]
pub struct Outcomes {
    pub first: Result<(), Refusal>,
    pub second: Result<(), Refusal>,
}

// Each list by a whole call.
pub fn run_both(
    setup: Setup,
    table: &[u8],
    one: &[u8],
    answers: &mut [u8],
    other: &[u8],
    others: &mut [u8],
) -> Outcomes
    ensures { ListsCompared setup.options setup.version table.now one.now answers.old answers.new other.now others.old others.new (outcome result.first) (outcome result.second) }
{
    let first = run_with_table(setup, table, one, answers);
    let second = run_with_table(setup, table, other, others);
    Outcomes { first, second }
}

// Each list event by event, whatever its length; refused is the table alone.
pub fn run_both_fitting(
    setup: Setup,
    table: &[u8],
    one: &[u8],
    answers: &mut [u8],
    other: &[u8],
    others: &mut [u8],
) -> Result<(), Refusal>
    ensures { FittingCompared setup.options setup.version table.now one.now answers.old answers.new other.now others.old others.new (outcome result) }
{
    let mut s = [0u8; 321];
    start_with_table(&mut s, setup, table)?;
    let mut t = s;
    run_fitting(&mut s, one, answers);
    run_fitting(&mut t, other, others);
    Ok(())
}
