// Images moved between the editions.
ghost use Rattle.std.specs.Prelude.{◌≡◌, IfOk};
ghost use Rattle.refusals.specs.Numbers.{outcome};
ghost use Rattle.image_bytes.specs.Checks.{first_of};
ghost use Rattle.image_bytes.specs.Edition.{size};
ghost use Rattle.image_bytes.specs.Find.{found};
ghost use Rattle.editions.specs.Read.{completed, image_refusal};
ghost use Rattle.editions.specs.Moves as moves;
ghost use Rattle.editions.specs.Moves.{Moved};

use crate::read::{PLAIN, read_body};
use body_rules::body::Body;
use image_bytes::edition::Edition;
use image_bytes::find::edition;
use image_bytes::layout::FIRST_BODY;
use image_bytes::seal::seal;
use refusals::refusal::Refusal;

// Whether the four bytes that edition 1 leaves out are those of a start with no option.
fn plain(b: &Body) -> bool
    ensures { result ≡ moves.plain b.now }
{
    b.ends_with(&PLAIN)
}

// The body of the image at the end of the bytes, which is to be of this edition.
#[tactic(auto, unfolding(crate::specs::Moves::edition_refusal, image_bytes::specs::Checks::first_of))]
fn moved_body(bytes: &[u8], from: Edition) -> Result<Body, Refusal>
    ensures refusal { outcome result ≡ first_of (moves.edition_refusal (size from) bytes.now) (image_refusal bytes.now) }
    ensures body { IfOk result (λ b. b ≡ completed (found bytes.now)) }
{
    if edition(bytes) != Some(from) {
        return Err(Refusal::NoImage);
    }
    read_body(bytes)
}

// Writes the image of edition 1 at the end of the bytes to the front of `out` as one of edition 2; or refuses and leaves `out` as it was.
pub fn to_second(bytes: &[u8], out: &mut [u8]) -> Result<(), Refusal>
    ensures { let l = bytes.now in Moved (moves.forward l) (moves.forward_refusal l out.old) out.old (outcome result) out.new }
{
    let body = moved_body(bytes, Edition::First)?;
    seal(Edition::Second, &body, out)
}

// The same of an image of edition 2, as one of edition 1.
pub fn to_first(bytes: &[u8], out: &mut [u8]) -> Result<(), Refusal>
    ensures { let l = bytes.now in Moved (moves.back l) (moves.back_refusal l out.old) out.old (outcome result) out.new }
{
    let body = moved_body(bytes, Edition::Second)?;
    if !plain(&body) {
        return Err(Refusal::OtherSettings);
    }
    seal(Edition::First, &body[..FIRST_BODY], out)
}
