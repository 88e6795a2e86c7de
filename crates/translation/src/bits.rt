// Bytes and bits of a number. Here and in the crates above a bit is asked for and set by `/`, `%` and `+`, as the definitions have it: the library has
// no type for the bits of a byte. The bounds let such sums stay bytes. Which bit of which byte a line is, is said once, by the function that has its
// name.
ghost use Rattle.std.specs.Prelude.{◌≡◌, ◌*◌, ◌≤◌, ◌<◌};
ghost use Rattle.translation.specs.Bits as bits;

// The word of two bytes, low byte first.
pub fn word(low: u8, high: u8) -> u16
    ensures { result ≡ bits.word low high }
{
    u16::from_le_bytes([low, high])
}

// w where the line is set, else 0.
pub fn weight(w: u8, set: bool) -> u8
    ensures { (result ≡ bits.weight w set) × (result ≤ w) }
{
    if set { w } else { 0 }
}

// Four lines as a number, the first the lowest.
pub fn nibble(a: bool, b: bool, c: bool, d: bool) -> u8
    ensures { (result ≡ bits.nibble a b c d) × (result < 16) }
{
    weight(1, a) + weight(2, b) + weight(4, c) + weight(8, d)
}

// Four lines as bits 4-7.
pub fn upper(a: bool, b: bool, c: bool, d: bool) -> u8
    ensures { (result ≡ 16 * bits.nibble a b c d) × (result ≤ 240) }
{
    16 * nibble(a, b, c, d)
}

// One of the numbers from low to high.
pub fn within(low: u8, high: u8, c: u8) -> bool
    ensures { result ≡ bits.within low high c }
{
    (low..=high).contains(&c)
}
