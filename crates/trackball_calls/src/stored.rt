// The six bytes that a board keeps of a trackball.
ghost use Rattle.std.specs.Prelude.{◌≡◌, false};
ghost use Rattle.translation.specs.Bits.{nibble};
ghost use Rattle.trackball.specs.View.{view};
ghost use Rattle.trackball_calls.specs.Stored as stored;

use trackball::counters::Axis;
use trackball::trackball::Trackball;
use translation::bits::nibble;

// Buttons; reporting and the two overflows; the sums x and y, low byte first.
pub type Stored = [u8; 6];

#[tactic(auto, using(crate::proofs::Laws::Stored::sum_from_bytes), unfolding(crate::specs::Stored::mouse_of))]
pub(crate) fn read(s: &Stored) -> Trackball
    ensures { view result ≡ stored.mouse_of s.now }
{
    let [buttons, flags, x_low, x_high, y_low, y_high] = *s;
    Trackball {
        x: Axis {
            sum: i16::from_le_bytes([x_low, x_high]),
            overflow: flags / 2 % 2 == 1,
        },
        y: Axis {
            sum: i16::from_le_bytes([y_low, y_high]),
            overflow: flags / 4 % 2 == 1,
        },
        buttons: buttons % 8,
        reporting: flags % 2 == 1,
    }
}

// What `read` gives has no bit that stands for nothing, nor has what a call makes of it.
#[tactic(auto, using(crate::proofs::Laws::Stored::bytes_from_sum), unfolding(crate::specs::Stored::bytes_of))]
pub(crate) fn bytes_of(t: Trackball) -> Stored
    ensures { result ≡ stored.bytes_of (view t) }
{
    let [x_low, x_high] = t.x.sum.to_le_bytes();
    let [y_low, y_high] = t.y.sum.to_le_bytes();
    [
        t.buttons,
        nibble(t.reporting, t.x.overflow, t.y.overflow, false),
        x_low,
        x_high,
        y_low,
        y_high,
    ]
}
