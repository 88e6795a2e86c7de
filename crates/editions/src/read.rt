// An image of either edition read, as edition 2 has it.
ghost use Rattle.editions.specs.Read.{BodyRead};

use body_rules::body::Body;
use body_rules::rules::body_kept;
use image_bytes::find::find;
use image_bytes::layout::FIRST_BODY;
use refusals::refusal::Refusal;

// The four bytes that a body of edition 2 has past those of edition 1, as a start with no option leaves them.
pub(crate) const PLAIN: [u8; 4] = [0, 0x3F, 3, 0];

// The body of the image at the end of the bytes; or refuses bytes that hold none, or whose body breaks a rule.
pub fn read_body(bytes: &[u8]) -> Result<Body, Refusal>
    ensures { BodyRead bytes.now result }
{
    let part = find(bytes);
    if part.is_empty() {
        return Err(Refusal::NoImage);
    }
    // A body of edition 1 ends before those four.
    let mut body = [0u8; 64];
    body[FIRST_BODY..].copy_from_slice(&PLAIN);
    body[..part.len()].copy_from_slice(part);
    if body_kept(&body) {
        Ok(body)
    } else {
        Err(Refusal::BrokenBody)
    }
}
