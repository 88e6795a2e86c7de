// Movement along x or y: a signed sum that stops at its ends, and how it is told in two's complement.
ghost use Rattle.std.specs.Prelude.{◌≡◌};
ghost use Rattle.trackball.specs.Counters as counters;
ghost use Rattle.trackball.specs.View.{counter};

// The ends of a sum.
const LOWEST: i16 = -256;

const HIGHEST: i16 = 255;

// The steps since the last packet, added up, and whether an end was passed. The default is no movement.
#[derive(Clone, Copy, Default)]
pub struct Axis {
    pub sum: i16,
    pub overflow: bool,
}

// Nine bits: a sign bit and a low byte.
#[derive(Clone, Copy)]
pub(crate) struct Nine {
    pub negative: bool,
    pub low: u8,
}

impl Axis {
    // A step added. What stops at an end of sixteen bits is past an end of a sum too.
    pub(crate) fn stepped(self, step: i16) -> Axis
        ensures { counter result ≡ counters.stepped step (counter self) }
    {
        let sum = self.sum.saturating_add(step);
        let held = sum.clamp(LOWEST, HIGHEST);
        Axis {
            sum: held,
            overflow: self.overflow || held != sum,
        }
    }
}

// Two's complement in sixteen bits.
#[tactic(auto, unfolding(crate::specs::Counters::complement))]
pub fn complement(sum: i16) -> u16
    ensures { result ≡ counters.complement sum }
{
    sum.cast_unsigned()
}

pub(crate) fn split(sum: i16) -> Nine
    ensures { (result.negative ≡ counters.negative sum) × (result.low ≡ counters.low_byte sum) }
{
    let [low, _] = complement(sum).to_le_bytes();
    Nine {
        negative: sum.is_negative(),
        low,
    }
}
