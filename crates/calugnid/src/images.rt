// Saved images: a state saved and loaded, a list run between two images, and images moved between the editions.
ghost use Rattle.std.specs.Prelude.{◌≡◌};
ghost use Rattle.translation.specs.KeyTable.{built_in};
ghost use Rattle.image_bytes.specs.Find.{body_start};
ghost use Rattle.editions.specs.Moves as moves;
ghost use Rattle.editions.specs.Moves.{Moved};
ghost use Rattle.image.specs.Promises.{Saved, Loaded};
ghost use Rattle.image.specs.Run.{ImageRun};

use editions::moves::{to_first, to_second};
use image::find::body_start;
use image::load::{load, load_with_table};
use image::run::{run_image, run_image_with_table};
use image::save::save;
use refusals::refusal::number_of;
use state::state::State;

// The state saved, but for its version byte and its key table: 0, or 9 with nothing written.
#[unsafe(no_mangle)]
pub extern "C" fn calugnid_save(state: &State, saved: &mut [u8]) -> u8
    ensures { Saved state.now saved.old result saved.new }
{
    number_of(save(state, saved))
}

// The state of the image at the end of the bytes, with this version byte and the built-in key table: 0, or 10 or 11 with the state as it was.
#[unsafe(no_mangle)]
pub extern "C" fn calugnid_load(state: &mut State, version: u8, image: &[u8]) -> u8
    ensures { Loaded version built_in state.old image.now result state.new }
{
    number_of(load(state, version, image))
}

// The same with a key table of the caller's: 0, or 10, 11, 13, 14 or 15 with the state as it was.
#[unsafe(no_mangle)]
pub extern "C" fn calugnid_load_with_table(
    state: &mut State,
    version: u8,
    table: &[u8],
    image: &[u8],
) -> u8
    ensures { Loaded version table.now state.old image.now result state.new }
{
    number_of(load_with_table(state, version, table, image))
}

// An image loaded, a list run and the state saved again. Every check comes before the first byte is written.
#[unsafe(no_mangle)]
pub extern "C" fn calugnid_run_image(
    version: u8,
    image: &[u8],
    list: &[u8],
    answers: &mut [u8],
    saved: &mut [u8],
) -> u8
    ensures { ImageRun version built_in image.now list.now answers.old saved.old result answers.new saved.new }
{
    number_of(run_image(version, image, list, answers, saved))
}

// The same with a key table of the caller's.
#[unsafe(no_mangle)]
pub extern "C" fn calugnid_run_image_with_table(
    version: u8,
    table: &[u8],
    image: &[u8],
    list: &[u8],
    answers: &mut [u8],
    saved: &mut [u8],
) -> u8
    ensures { ImageRun version table.now image.now list.now answers.old saved.old result answers.new saved.new }
{
    number_of(run_image_with_table(version, table, image, list, answers, saved))
}

// An image of edition 1 as one of edition 2: 0, or 10, 11 or 9 with nothing written.
#[unsafe(no_mangle)]
pub extern "C" fn calugnid_move_to_edition_2(image: &[u8], moved: &mut [u8]) -> u8
    ensures { let l = image.now in Moved (moves.forward l) (moves.forward_refusal l moved.old) moved.old result moved.new }
{
    number_of(to_second(image, moved))
}

// An image of edition 2 as one of edition 1: 0, or 10, 11, 16 or 9 with nothing written.
#[unsafe(no_mangle)]
pub extern "C" fn calugnid_move_to_edition_1(image: &[u8], moved: &mut [u8]) -> u8
    ensures { let l = image.now in Moved (moves.back l) (moves.back_refusal l moved.old) moved.old result moved.new }
{
    number_of(to_first(image, moved))
}

// Where the body of the image at the end of the bytes starts, or their length where there is none.
#[unsafe(no_mangle)]
pub extern "C" fn calugnid_find(image: &[u8]) -> usize
    ensures { result ≡ body_start image.now }
{
    body_start(image)
}
