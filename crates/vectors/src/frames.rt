// The verdict on each number of eleven bits, and the translation of each byte with the break flag clear and set. Bytes are put together before they are
// written, since each piece of a format is a write of its own.
use printing::hex::two_digits;
use std::io;
use std::io::Write;
use translation::frames::Verdict;
use translation::key_table::built_in_entry;
use translation::{frames, scan_codes};

fn put_frame<W: Write>(out: &mut W, f: u16) -> io::Result<()> {
    let [high, low] = f.to_be_bytes();
    let [_, first] = two_digits(high);
    let [second, third] = two_digits(low);
    out.write_all(&[first, second, third, b' '])?;
    match frames::judge(f) {
        Verdict::Sound(byte) => writeln!(out, "sound {byte:02X}"),
        Verdict::Parity => out.write_all(b"parity\n"),
        Verdict::Broken => out.write_all(b"broken\n"),
        Verdict::Noise => out.write_all(b"noise\n"),
    }
}

// The break flag is printed as 0 or 1, before the translation and after it.
fn flag(set: bool) -> u8 {
    if set { b'1' } else { b'0' }
}

fn put_code<W: Write>(out: &mut W, byte: u8, breaks: bool) -> io::Result<()> {
    let after = scan_codes::translate(built_in_entry(byte), byte, breaks);
    let [high, low] = two_digits(byte);
    let [first, second] = match after.yields {
        Some(code) => two_digits(code),
        None => [b'-', b'-'],
    };
    let [before, end] = [flag(breaks), flag(after.breaks)];
    out.write_all(&[
        high, low, b' ', before, b' ', first, second, b' ', end, b'\n',
    ])
}

pub fn put_all<W: Write>(out: &mut W) -> io::Result<()> {
    for f in 0..2048 {
        put_frame(out, f)?;
    }
    for breaks in [false, true] {
        for byte in 0..=255 {
            put_code(out, byte, breaks)?;
        }
    }
    Ok(())
}
