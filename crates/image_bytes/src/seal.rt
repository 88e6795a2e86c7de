// An image written to a caller's bytes.
ghost use Rattle.std.specs.Prelude.{ℕ};
ghost use Rattle.refusals.specs.Numbers.{outcome};
ghost use Rattle.image_bytes.specs.Layout.{sealed};
ghost use Rattle.image_bytes.specs.Seal.{Written};

use crate::layout::{TRAILER, trailer};
use refusals::refusal::Refusal;

// Writes a body with its trailer to the front of `out`; or refuses a space that is short and leaves it as it was. The trailer names the edition as a
// number, which may be any.
pub fn seal<E: Into<u8>>(edition: E, body: &[u8], out: &mut [u8]) -> Result<(), Refusal>
    ensures { (n : ℕ) × E.converts edition n × Written (sealed n body.now) out.old (outcome result) out.new }
{
    let number = edition.into();
    if out.len() < TRAILER || out.len() - TRAILER < body.len() {
        return Err(Refusal::ImageSpace);
    }
    let end = trailer(number, body);
    let at = body.len();
    out[..at].copy_from_slice(body);
    out[at..at + TRAILER].copy_from_slice(&end);
    Ok(())
}
