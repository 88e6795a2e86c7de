// A byte in hexadecimal.
ghost use Rattle.std.specs.Prelude.{◌≡◌};
ghost use Rattle.printing.specs.Hex.{hex_byte};

// 0 to 9, then capital letters. The library's `{:02X}` goes to a writer alone, whose writes may fail, and `hex` asks for memory or gives small letters.
const DIGITS: [u8; 16] = *b"0123456789ABCDEF";

// A byte as two digits, the high one first.
pub fn two_digits(byte: u8) -> [u8; 2]
    ensures { result ≡ hex_byte byte }
{
    let high = usize::from(byte / 16);
    let low = usize::from(byte % 16);
    [DIGITS[high], DIGITS[low]]
}
