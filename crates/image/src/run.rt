// An image loaded, a list of events run, and the state saved again.
ghost use Rattle.refusals.specs.Numbers.{outcome};
ghost use Rattle.translation.specs.KeyTable.{built_in};
ghost use Rattle.image.specs.Run.{ImageRun};

use crate::load::load_with_table;
use crate::save::save;
use controller::run::{check_list, run};
use image_bytes::layout::IMAGE;
use refusals::refusal::Refusal;
use state::state::{Setup, start};
use translation::key_table::built_in;

// Writes the answers and, to the front of `saved`, the image; or refuses and leaves both as they were. Every check comes before the first byte is
// written.
pub fn run_image_with_table(
    version: u8,
    table: &[u8],
    image: &[u8],
    list: &[u8],
    answers: &mut [u8],
    saved: &mut [u8],
) -> Result<(), Refusal>
    ensures { ImageRun version table.now image.now list.now answers.old saved.old (outcome result) answers.new saved.new }
{
    check_list(list.len(), answers.len())?;
    if saved.len() < IMAGE {
        return Err(Refusal::ImageSpace);
    }
    let mut s = start(Setup {
        options: 0,
        version: 0,
    });
    load_with_table(&mut s, version, table, image)?;
    run(&mut s, list, answers)?;
    save(&s, saved)
}

// The same with the built-in key table.
pub fn run_image(
    version: u8,
    image: &[u8],
    list: &[u8],
    answers: &mut [u8],
    saved: &mut [u8],
) -> Result<(), Refusal>
    ensures { ImageRun version built_in image.now list.now answers.old saved.old (outcome result) answers.new saved.new }
{
    run_image_with_table(version, &built_in(), image, list, answers, saved)
}
