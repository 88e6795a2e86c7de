// Bytes handed out as the frames that a mouse sends.
ghost use Rattle.std.specs.Prelude.{◌≡◌, ◌≤◌, length};
ghost use Rattle.trackball.specs.View.{bytes_in};
ghost use Rattle.trackball_calls.specs.Promises.{framed};

use trackball::packets::Bytes;
use translation::frames::frame_of;

// Room for the frames of any one call.
pub type Places = [u16; 4];

// Bytes as frames at the front of the places, and how many they are. The places past them stay. Of an array that `iter_mut` lends beside the bytes,
// the library does not say what it holds in the end, so the place of each frame is counted.
fn put(bytes: &[u8], places: &mut Places) -> usize
    requires { length bytes.now ≤ 4 }
    ensures { (result ≡ length bytes.now) × (places.new ≡ framed bytes.now places.old) }
{
    for (i, byte) in bytes.iter().enumerate() {
        places[i] = frame_of(*byte);
    }
    bytes.len()
}

// What a call hands out, put there.
pub(crate) fn lay(bytes: Bytes, places: &mut Places) -> usize
    ensures { (result ≡ length (bytes_in bytes)) × (places.new ≡ framed (bytes_in bytes) places.old) }
{
    match bytes {
        Bytes::Nothing => put(&[], places),
        Bytes::One(a) => put(&[a], places),
        Bytes::Two(a, b) => put(&[a, b], places),
        Bytes::Three(a, b, c) => put(&[a, b, c], places),
        Bytes::Four(a, b, c, d) => put(&[a, b, c, d], places),
    }
}
