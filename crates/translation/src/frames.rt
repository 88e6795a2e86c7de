// A frame is an 11-bit number: start bit, eight data bits, odd parity bit, stop bit. All work on it is done in sixteen bits, the
// narrowest number with room for eleven.
ghost use Rattle.std.specs.Prelude.{◌≡◌, ◌*◌, ◌%◌, ◌<◌};
ghost use Rattle.translation.specs.Frames.{check, frame, verdict, ones};

// What the frame check finds: a sound frame with its byte, a wrong parity bit, a wrong stop bit, or a wrong start bit. It isn't a Result:
// noise, a wrong start bit, is neither a byte nor an error that the host sees.
#[derive(Clone, Copy)]
pub enum Verdict {
    Sound(u8),
    Parity,
    Broken,
    Noise,
}

// The parity of bits 1-9, in the parity bit's place: 512 where they hold an odd count of ones, else 0. An exclusive or folds bits 1-8
// onto bits 1, 3, 5 and 7. The product has the sum of these four at bit 9, and what it has below never carries into that bit.
fn parity_of(f: u16) -> u16
    requires { f < 2048 }
    ensures { result ≡ 512 * (ones f % 2) }
{
    let pairs = (f ^ f / 2) & 0xAA;
    (pairs * 0x154 ^ f) & 0x200
}

// Start bit, stop bit, parity, in this order. A number above 2047 is no frame, and is broken, odd or even; an even one fails with those
// that have no stop bit, since in a frame nothing stands above that bit.
#[tactic(auto, unfolding(crate::specs::Frames::check))]
pub fn judge(f: u16) -> Verdict
    ensures { verdict result ≡ check f }
{
    if f % 2 == 1 {
        if 2047 < f {
            return Verdict::Broken; // no frame
        }
        return Verdict::Noise;
    }
    if f / 1024 != 1 {
        return Verdict::Broken; // no stop bit, or no frame
    }
    if parity_of(f) == 0 {
        return Verdict::Parity;
    }
    Verdict::Sound((f / 2 % 256) as u8)
}

// The frame of a byte: parity and stop bit are set, and the parity bit is cleared where the byte's own count of ones is odd.
pub fn frame_of(byte: u8) -> u16
    ensures { result ≡ frame byte }
{
    let data = 2 * (byte as u16);
    (data + 0x600) ^ parity_of(data)
}
