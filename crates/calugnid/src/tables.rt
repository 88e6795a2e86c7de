// Key tables of the grower's own: a start and a run with one, and the checks of one.
ghost use Rattle.std.specs.Prelude.{◌≡◌};
ghost use Rattle.translation.specs.KeyTable.{table_refusal};
ghost use Rattle.state.specs.Started.{TableStarted};
ghost use Rattle.controller.specs.Promises.{TableRun};

use controller::run::run_with_table;
use refusals::refusal::number_of;
use state::state::{Setup, State, start_with_table};
use translation::key_table::check_table;

// The number of the check that would refuse a table, 0 for none.
#[unsafe(no_mangle)]
pub extern "C" fn calugnid_table_refusal(table: &[u8]) -> u8
    ensures { result ≡ table_refusal table.now }
{
    number_of(check_table(table))
}

// A controller after power-on with this table: 0, or the number that refuses the table with the state as it was.
#[unsafe(no_mangle)]
pub extern "C" fn calugnid_start_with_table(
    state: &mut State,
    options: u8,
    version: u8,
    table: &[u8],
) -> u8
    ensures { TableStarted options version table.now state.old result state.new }
{
    number_of(start_with_table(state, Setup { options, version }, table))
}

// A list run by a controller that is started with this table: 0, or the number that refuses the table or the list.
#[unsafe(no_mangle)]
pub extern "C" fn calugnid_run_with_table(
    options: u8,
    version: u8,
    table: &[u8],
    list: &[u8],
    answers: &mut [u8],
) -> u8
    ensures { TableRun options version table.now list.now answers.old answers.new result }
{
    let setup = Setup { options, version };
    number_of(run_with_table(setup, table, list, answers))
}
