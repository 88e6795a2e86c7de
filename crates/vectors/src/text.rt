// Reading the parts of a line: words, bytes in hexadecimal and numbers in decimal.
ghost use Rattle.std.specs.Prelude.{◌<◌, ◌≤◌, length, IfOk};

use std::str;

// A text is not what its line asks for.
#[derive(Clone, Copy, Debug)]
pub struct Malformed;

// What stands before the first space and what stands behind it, which is nothing where there is none.
pub fn cut(text: &[u8]) -> (&[u8], &[u8]) {
    match text.iter().position(|byte| *byte == b' ') {
        Some(at) => (&text[..at], &text[at + 1..]),
        None => (text, &[]),
    }
}

// What counts of a word: its last eight bytes, without the zeros before them.
pub fn counted(word: &[u8]) -> &[u8] {
    let end = &word[word.len().saturating_sub(8)..];
    match end.iter().position(|byte| *byte != 0) {
        Some(at) => &end[at..],
        None => &[],
    }
}

// A number of decimal digits alone: `parse` takes a sign too.
pub fn decimal(text: &[u8]) -> Result<usize, Malformed> {
    if !text.iter().all(|byte| byte.is_ascii_digit()) {
        return Err(Malformed);
    }
    let digits = str::from_utf8(text).map_err(|_| Malformed)?;
    digits.parse().map_err(|_| Malformed)
}

// What a digit stands for. `to_digit` takes small letters too.
fn value(digit: u8) -> Result<u8, Malformed>
    ensures { IfOk result (λ v. v < 16) }
{
    match digit {
        b'0'..=b'9' => Ok(digit - b'0'),
        b'A'..=b'F' => Ok(digit - b'A' + 10),
        _ => Err(Malformed),
    }
}

// Writes the bytes that pairs of digits stand for, with spaces between them or not, and says how many. Where there is anything else, or no room,
// those before it are written.
pub fn hexadecimal(text: &[u8], bytes: &mut [u8]) -> Result<usize, Malformed>
    ensures { IfOk result (λ n. n ≤ length bytes.new) }
{
    let mut digits = text.iter().filter(|digit| **digit != b' ');
    for (i, byte) in bytes.iter_mut().enumerate() {
        let Some(high) = digits.next() else {
            return Ok(i);
        };
        *byte = value(*high)?;
        let low = digits.next().ok_or(Malformed)?;
        *byte = *byte * 16 + value(*low)?;
    }
    if digits.next().is_some() {
        return Err(Malformed);
    }
    Ok(bytes.len())
}

// The same where the text has as many bytes as there are.
pub fn fill(text: &[u8], bytes: &mut [u8]) -> Result<(), Malformed> {
    let size = bytes.len();
    if hexadecimal(text, bytes)? == size {
        Ok(())
    } else {
        Err(Malformed)
    }
}
