// Saves and loads at their edges. Each line has a name, the refusal, and the sum of the bytes that came of it: of a save the space that was lent, of
// a load the image of the state that came back.
use crate::bodies::TRIED;
use crate::moves;
use crate::sample::{GIVEN, Image, PLAIN, sample};
use image::find::find;
use image::load::load;
use image::save::save;
use refusals::refusal::{Refusal, number_of};
use state::state::start;
use std::fmt::Display;
use std::io;
use std::io::Write;

// What a space holds before it is lent.
pub const FILL: u8 = 0xEE;

// The bytes added up.
fn added(bytes: &[u8]) -> u16 {
    bytes.iter().fold(0u16, |total, byte| { total.wrapping_add(u16::from(*byte)) })
}

pub fn put_line<W: Write>(
    out: &mut W,
    name: impl Display + Drop,
    outcome: Result<(), Refusal>,
    bytes: &[u8],
) -> io::Result<()> {
    writeln!(out, "{name} {} {}", number_of(outcome), added(bytes))
}

fn try_saves<W: Write>(out: &mut W) -> io::Result<()> {
    let s = sample(3);
    for size in [71, 72, 76] {
        let mut space = [FILL; 76];
        let space = &mut space[..size];
        let outcome = save(&s, space);
        put_line(out, format_args!("save {size}"), outcome, space)?;
    }
    Ok(())
}

pub fn try_load<W: Write>(out: &mut W, name: impl Display + Drop, bytes: &[u8]) -> io::Result<()> {
    let mut s = start(PLAIN);
    let outcome = load(&mut s, GIVEN, bytes);
    put_line(out, name, outcome, &Image::of(&s).0)
}

// The length of the body that is found, in the place of a refusal, and its sum.
pub fn try_find<W: Write>(out: &mut W, name: &str, bytes: &[u8]) -> io::Result<()> {
    let body = find(bytes);
    writeln!(out, "{name} {} {}", body.len(), added(body))
}

// The image by itself, cut short, behind other bytes, and before one.
fn try_places<W: Write>(out: &mut W, image: Image) -> io::Result<()> {
    let mut bytes = [FILL; 104];
    bytes[31..103].copy_from_slice(&image.0);
    try_load(out, "load whole", &bytes[31..103])?;
    try_load(out, "load short", &bytes[32..103])?;
    try_load(out, "load behind", &bytes[..103])?;
    try_load(out, "load before", &bytes)?;
    try_find(out, "find", &bytes[..103])
}

// Another byte than x, unless x is 198.
fn other(x: u8) -> u8 {
    x / 2 + 99
}

// A byte of the trailer changed. The place is printed, so it is counted.
fn try_trailers<W: Write>(out: &mut W, image: Image) -> io::Result<()> {
    for at in 64..72 {
        let changed = image.with(at, other(image.0[usize::from(at)]));
        try_load(out, format_args!("trailer {at}"), &changed.0)?;
    }
    Ok(())
}

fn try_bodies<W: Write>(out: &mut W, image: Image) -> io::Result<()> {
    for [(first, x), (second, y)] in TRIED {
        let name = format_args!("body {first} {x} {second} {y}");
        let changed = image.with(*first, *x).with(*second, *y).summed();
        try_load(out, name, &changed.0)?;
    }
    Ok(())
}

// Lock codes of no byte and of sixteen: locked, and a length of seventeen.
fn try_codes<W: Write>(out: &mut W) -> io::Result<()> {
    let none = Image::of(&sample(0));
    try_load(out, "code none", &none.0)?;
    try_load(out, "code none locked", &none.with(1, 0x40).summed().0)?;
    let most = Image::of(&sample(16));
    try_load(out, "code sixteen", &most.0)?;
    try_load(out, "code seventeen", &most.with(10, 17).summed().0)
}

// A call of its own: what it needs of the stack is not there while lists are run.
#[inline(never)]
pub fn try_all<W: Write>(out: &mut W) -> io::Result<()> {
    try_saves(out)?;
    let image = Image::of(&sample(3));
    try_places(out, image)?;
    try_trailers(out, image)?;
    try_bodies(out, image)?;
    try_codes(out)?;
    moves::try_all(out, image)
}
