// The image at the end of a caller's bytes.
ghost use Rattle.std.specs.Prelude.{◌≡◌, ◌+◌, ◌≤◌, length, MatchOption};
ghost use Rattle.image_bytes.specs.Edition.{number, size, size_or_zero};
ghost use Rattle.image_bytes.specs.Find as spec;
ghost use Rattle.image_bytes.specs.Find.{BodyFound};

use crate::edition::Edition;
use crate::layout::{MARK, TRAILER};
use crate::sum::word_sum;

// The mark of a trailer.
fn marked(trailer: &[u8; TRAILER]) -> bool
    ensures { result ≡ spec.marked trailer.now }
{
    trailer.ends_with(&MARK)
}

// How far back from a trailer its body starts.
fn distance_of(trailer: &[u8; TRAILER]) -> usize
    ensures { result ≡ spec.distance_of trailer.now }
{
    u16::from_le_bytes([trailer[0], trailer[1]]) as usize
}

// Whether the bytes end in an image of this edition.
#[tactic(auto, unfolding(crate::specs::Find::ends))]
fn ends(bytes: &[u8], edition: Edition) -> bool
    ensures { result ≡ spec.ends (number edition) (size edition) bytes.now }
{
    let size = edition.body_size();
    let Some((front, trailer)) = bytes.split_last_chunk::<TRAILER>() else {
        return false;
    };
    if front.len() < size {
        return false;
    }
    let stored = u16::from_le_bytes([trailer[2], trailer[3]]);
    let total = word_sum(&front[front.len() - size..]);
    marked(trailer)
        & ((trailer[4] == u8::from(edition)) & ((distance_of(trailer) == size) & (stored == total)))
}

// The edition that the trailer names; none if check 10 refuses the bytes.
#[tactic(auto, unfolding(crate::specs::Find::body_size))]
pub fn edition(bytes: &[u8]) -> Option<Edition>
    ensures { size_or_zero result ≡ spec.body_size bytes.now }
{
    if ends(bytes, Edition::First) {
        Some(Edition::First)
    } else if ends(bytes, Edition::Second) {
        Some(Edition::Second)
    } else {
        None
    }
}

// Where the body starts that the trailer points back to; none if check 10 refuses the bytes.
fn start_of(bytes: &[u8]) -> Option<usize>
    ensures { MatchOption result (spec.body_size bytes.now ≡ 0) (λ start. (start ≡ spec.body_start bytes.now) × (start + 8 ≤ length bytes.now)) }
{
    edition(bytes)?;
    let (front, trailer) = bytes.split_last_chunk::<TRAILER>()?;
    Some(front.len() - distance_of(trailer))
}

// The same, with the length of the bytes for none: C, which asks for it, has no Option.
pub fn body_start(bytes: &[u8]) -> usize
    ensures { result ≡ spec.body_start bytes.now }
{
    start_of(bytes).unwrap_or(bytes.len())
}

// That body as a part of the caller's bytes; an empty part, at their end, if check 10 refuses them. Document 01 asks for an empty part there.
pub fn find(bytes: &[u8]) -> &[u8]
    ensures { BodyFound bytes.now bytes.entry.ref_ptr result.now result.ref_ptr }
{
    match start_of(bytes) {
        None => &bytes[bytes.len()..],
        Some(start) => &bytes[start..bytes.len() - TRAILER],
    }
}
