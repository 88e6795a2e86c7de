// Whole lists from fresh: nothing is kept between two calls.
ghost use Rattle.translation.specs.KeyTable.{built_in};
ghost use Rattle.machine.specs.Settings.{settings_of};
ghost use Rattle.controller.specs.Promises.{FreshRun};

use controller::run::run_fresh;
use refusals::refusal::number_of;
use state::state::Setup;

// A list run by a controller that is started with the settings that the options name, a version byte and the built-in key table: 0, or the number that refuses it.
#[unsafe(no_mangle)]
pub extern "C" fn calugnid_run(options: u8, version: u8, list: &[u8], answers: &mut [u8]) -> u8
    ensures { FreshRun (settings_of options version built_in) list.now answers.old answers.new result }
{
    number_of(run_fresh(Setup { options, version }, list, answers))
}
