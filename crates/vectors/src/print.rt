// Bytes as the program prints them.
use printing::hex::two_digits;
use std::fmt;

// In hexadecimal, two digits each, with a space between two bytes.
#[derive(Clone, Copy)]
pub struct Hex<'a>(pub &'a [u8]);

impl fmt::Display for Hex<'_> {
    fn fmt<W: fmt::Write>(&self, f: &mut fmt::Formatter<W>) -> fmt::Result {
        let Some((first, others)) = self.0.split_first() else {
            return Ok(());
        };
        write!(f, "{first:02X}")?;
        for byte in others {
            write!(f, " {byte:02X}")?;
        }
        Ok(())
    }
}

// Nine bytes so printed, as a line. It is made before it is written, so that it costs one write and not one for each byte.
pub fn line(bytes: &[u8; 9]) -> [u8; 27] {
    let mut text = [b' '; 27];
    for (i, byte) in bytes.iter().enumerate() {
        let at = 3 * i;
        text[at..at + 2].copy_from_slice(&two_digits(*byte));
    }
    text[26] = b'\n';
    text
}
