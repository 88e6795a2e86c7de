// A state loaded from an image of either edition.
ghost use Rattle.refusals.specs.Numbers.{outcome};
ghost use Rattle.translation.specs.KeyTable.{built_in};
ghost use Rattle.image.specs.Promises.{Loaded};

use editions::read::read_body;
use image_bytes::layout::BODY;
use refusals::refusal::Refusal;
use state::state::{Setup, State, start_with_table};
use translation::key_table::built_in;

// Loads the image at the end of the bytes into `s`, with this version byte and key table; or refuses and leaves `s` as it was.
pub fn load_with_table(
    s: &mut State,
    version: u8,
    table: &[u8],
    bytes: &[u8],
) -> Result<(), Refusal>
    ensures { Loaded version table.now s.old bytes.now (outcome result) s.new }
{
    let body = read_body(bytes)?;
    // The start stands behind the body: of it the version byte and the table stay.
    let setup = Setup {
        options: 0,
        version,
    };
    start_with_table(s, setup, table)?;
    s[..BODY].copy_from_slice(&body);
    Ok(())
}

// The same with the built-in key table.
pub fn load(s: &mut State, version: u8, bytes: &[u8]) -> Result<(), Refusal>
    ensures { Loaded version built_in s.old bytes.now (outcome result) s.new }
{
    load_with_table(s, version, &built_in(), bytes)
}
