// A state saved as an image.
ghost use Rattle.refusals.specs.Numbers.{outcome};
ghost use Rattle.image.specs.Promises.{Saved};

use image_bytes::edition::Edition;
use image_bytes::layout::BODY;
use image_bytes::seal::seal;
use refusals::refusal::Refusal;
use state::state::State;

// Writes the image of `s` to the front of `out`; or refuses and leaves `out` as it was.
pub fn save(s: &State, out: &mut [u8]) -> Result<(), Refusal>
    ensures { Saved s.now out.old (outcome result) out.new }
{
    seal(Edition::Second, &s[..BODY], out)
}
