// Images moved between the editions. A line has the name, the refusal, and the sum of the space that was lent.
use crate::images::{FILL, put_line, try_find, try_load};
use crate::sample::Image;
use editions::moves::{to_first, to_second};
use image_bytes::edition::Edition;
use image_bytes::layout::FIRST_BODY;
use image_bytes::seal::seal;
use refusals::refusal::Refusal;
use std::io;
use std::io::Write;

fn try_move<W: Write, F: FnOnce(&[u8], &mut [u8]) -> Result<(), Refusal>>(
    out: &mut W,
    name: &str,
    moves: F,
    bytes: &[u8],
    space: &mut [u8],
) -> io::Result<()>
    requires { F.IsAlwaysCallable moves }
{
    let outcome = moves(bytes, space);
    put_line(out, name, outcome, space)
}

// The front of an image as one of edition 1.
fn old_of(image: Image) -> [u8; 68] {
    let mut old = [0; 68];
    seal(Edition::First, &image.0[..FIRST_BODY], &mut old).unwrap();
    old
}

// An image of edition 1 loaded, found and moved, and what it moved to moved back; and images that have no way.
pub fn try_all<W: Write>(out: &mut W, image: Image) -> io::Result<()> {
    let old = old_of(image);
    let new = image.0;
    try_load(out, "old whole", &old)?;
    try_find(out, "old find", &old)?;
    let mut moved = [FILL; 72];
    try_move(out, "forward whole", to_second, &old, &mut moved)?;
    try_move(out, "forward short", to_second, &old, &mut [FILL; 71])?;
    try_move(out, "forward new", to_second, &new, &mut [FILL; 72])?;
    try_move(out, "back whole", to_first, &moved, &mut [FILL; 68])?;
    try_move(out, "back short", to_first, &moved, &mut [FILL; 67])?;
    try_move(out, "back settings", to_first, &new, &mut [FILL; 68])?;
    try_move(out, "back old", to_first, &old, &mut [FILL; 68])
}
