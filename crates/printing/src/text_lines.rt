// Lines of bytes in hexadecimal. Of a buffer that is lent in parts, as by `chunks_exact_mut`, the library does not say what it holds in the end, so
// the place of each part is counted.
ghost use Rattle.std.specs.Prelude.{◌≡◌, ◌++◌, ◌*◌, ◌/◌, ◌≤◌, length, drop};
ghost use Rattle.printing.specs.Lines.{line, lines};

use crate::hex::two_digits;

// Nine bytes as a line: a space after each, and LF in place of the last.
fn line(bytes: &[u8; 9]) -> [u8; 27]
    ensures { result ≡ line bytes.now }
{
    let mut text = [0; 27];
    for (i, byte) in bytes.iter().enumerate() {
        let [high, low] = two_digits(*byte);
        let at = 3 * i;
        text[at..at + 3].copy_from_slice(&[high, low, b' ']);
    }
    text[26] = b'\n';
    text
}

// A line for each nine bytes.
pub(crate) fn write_lines(answers: &[u8], out: &mut [u8])
    requires { 27 * (length answers.now / 9) ≤ length out.old }
    ensures { let n = length answers.now / 9 in out.new ≡ lines n answers.now ++ drop (27 * n) out.old }
{
    let (nines, _) = answers.as_chunks::<9>();
    for (i, nine) in nines.iter().enumerate() {
        let at = 27 * i;
        out[at..at + 27].copy_from_slice(&line(nine));
    }
}
