// The calls on a trackball that a board keeps as six bytes. C has a call for each, passes a move as three numbers and lends six bytes and four
// places: so both are arrays, with a count of the places that are used. Bits of the six are read by `/` and `%`, as the definition has them.
ghost use Rattle.std.specs.Prelude.{◌≡◌};
ghost use Rattle.trackball.specs.Trackball as ball;
ghost use Rattle.trackball.specs.Packets.{report_bytes, reported};
ghost use Rattle.trackball.specs.Commands.{reply_bytes, received};
ghost use Rattle.trackball.specs.View.{view, bytes_in};
ghost use Rattle.trackball_calls.specs.Stored.{bytes_of, mouse_of};
ghost use Rattle.trackball_calls.specs.Promises.{HandedOut};

use crate::frames::{Places, lay};
use crate::stored::{Stored, bytes_of, read};
use trackball::packets::Reply;
use trackball::trackball::Trackball;

// A trackball after power-on.
pub fn start() -> Stored
    ensures { result ≡ bytes_of ball.fresh }
{
    bytes_of(Trackball::default())
}

pub fn move_by(s: &mut Stored, buttons: u8, x: i16, y: i16)
    ensures { s.new ≡ bytes_of (ball.moved buttons x y (mouse_of s.old)) }
{
    *s = bytes_of(read(s).moved(buttons, x, y));
}

// A reply: its trackball is kept, its bytes are handed out, and what comes back is how many they are.
fn hand_out(r: Reply, s: &mut Stored, places: &mut Places) -> usize
    ensures { HandedOut (bytes_in r.bytes) (view r.trackball) places.old s.new places.new result }
{
    *s = bytes_of(r.trackball);
    lay(r.bytes, places)
}

// A byte that the host sent to it, and how many frames it replies with.
pub fn send(s: &mut Stored, byte: u8, places: &mut Places) -> usize
    ensures { let m = mouse_of s.old in HandedOut (reply_bytes byte m) (received byte m) places.old s.new places.new result }
{
    hand_out(read(s).reply(byte), s, places)
}

// What it has to report, and how many frames that is.
pub fn report(s: &mut Stored, places: &mut Places) -> usize
    ensures { let m = mouse_of s.old in HandedOut (report_bytes m) (reported m) places.old s.new places.new result }
{
    hand_out(read(s).report(), s, places)
}
