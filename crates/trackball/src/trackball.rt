// The trackball's state, a start and a move.
ghost use Rattle.std.specs.Prelude.{◌≡◌};
ghost use Rattle.trackball.specs.Trackball as ball;
ghost use Rattle.trackball.specs.View.{view};

use crate::counters::Axis;

// The buttons are bits 0-2; a packet has no other bit of them.
#[derive(Clone, Copy)]
pub struct Trackball {
    pub x: Axis,
    pub y: Axis,
    pub buttons: u8,
    pub reporting: bool,
}

// After power-on: reporting disabled, no movement, no button down. It isn't derived, so that its contract names the definition.
impl Default for Trackball {
    ghost is_default = { λ t. view t ≡ ball.fresh };

    fn default() -> Trackball {
        Trackball {
            x: Axis::default(),
            y: Axis::default(),
            buttons: 0,
            reporting: false,
        }
    }
}

impl Trackball {
    // Buttons and steps of a move, which count whether it reports or not.
    #[tactic(auto, unfolding(crate::specs::Trackball::moved))]
    pub fn moved(self, buttons: u8, x: i16, y: i16) -> Trackball
        ensures { view result ≡ ball.moved buttons x y (view self) }
    {
        Trackball {
            x: self.x.stepped(x),
            y: self.y.stepped(y),
            buttons: buttons % 8,
            ..self
        }
    }

    pub(crate) fn with_reporting(self, reporting: bool) -> Trackball
        ensures { view result ≡ ball.with_reporting reporting (view self) }
    {
        Trackball { reporting, ..self }
    }

    // No movement; the buttons stay.
    pub(crate) fn without_movement(self) -> Trackball
        ensures { view result ≡ ball.without_movement (view self) }
    {
        Trackball {
            x: Axis::default(),
            y: Axis::default(),
            ..self
        }
    }
}
