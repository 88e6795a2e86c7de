// What stands around a body in an image: the trailer, and how long the parts are.
ghost use Rattle.std.specs.Prelude.{◌≡◌};
ghost use Rattle.image_bytes.specs.Layout as layout;

use crate::sum::word_sum;

// How many bytes a body of edition 1 has.
pub const FIRST_BODY: usize = 60;

// A body of edition 2, and the image that a save writes.
pub const BODY: usize = 64;

pub const TRAILER: usize = 8;

pub const IMAGE: usize = 72;

// What a trailer ends with.
pub(crate) const MARK: [u8; 3] = [0x4B, 0x42, 0x43];

// The trailer of a body.
#[tactic(auto, unfolding(crate::specs::Layout::trailer))]
pub(crate) fn trailer(edition: u8, body: &[u8]) -> [u8; 8]
    ensures { result ≡ layout.trailer edition body.now }
{
    let distance = body.len().to_le_bytes();
    let total = word_sum(body).to_le_bytes();
    [
        distance[0],
        distance[1],
        total[0],
        total[1],
        edition,
        MARK[0],
        MARK[1],
        MARK[2],
    ]
}
