// A trackball that a board keeps beside its controller.
ghost use Rattle.std.specs.Prelude.{◌≡◌};
ghost use Rattle.trackball.specs.Trackball as ball;
ghost use Rattle.trackball.specs.Packets.{report_bytes, reported};
ghost use Rattle.trackball.specs.Commands.{reply_bytes, received};
ghost use Rattle.trackball_calls.specs.Stored.{bytes_of, mouse_of};
ghost use Rattle.trackball_calls.specs.Promises.{HandedOut};

use trackball_calls::calls::{move_by, report, send, start};
use trackball_calls::frames::Places;
use trackball_calls::stored::Stored;

// A trackball after power-on.
#[unsafe(no_mangle)]
pub extern "C" fn calugnid_trackball_start(trackball: &mut Stored)
    ensures { trackball.new ≡ bytes_of ball.fresh }
{
    *trackball = start();
}

// A move: the buttons in bits 0-2, and the steps.
#[unsafe(no_mangle)]
pub extern "C" fn calugnid_trackball_move(trackball: &mut Stored, buttons: u8, x: i16, y: i16)
    ensures { trackball.new ≡ bytes_of (ball.moved buttons x y (mouse_of trackball.old)) }
{
    move_by(trackball, buttons, x, y);
}

// A byte that the host sent to it: how many frames it replies with.
#[unsafe(no_mangle)]
pub extern "C" fn calugnid_trackball_send(
    trackball: &mut Stored,
    byte: u8,
    frames: &mut Places,
) -> usize
    ensures { let m = mouse_of trackball.old in HandedOut (reply_bytes byte m) (received byte m) frames.old trackball.new frames.new result }
{
    send(trackball, byte, frames)
}

// What it has to report: how many frames that is.
#[unsafe(no_mangle)]
pub extern "C" fn calugnid_trackball_report(trackball: &mut Stored, frames: &mut Places) -> usize
    ensures { let m = mouse_of trackball.old in HandedOut (report_bytes m) (reported m) frames.old trackball.new frames.new result }
{
    report(trackball, frames)
}
