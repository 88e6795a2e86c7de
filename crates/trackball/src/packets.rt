// Packets, and what a report hands out.
ghost use Rattle.std.specs.Prelude.{◌≡◌, [], ◌∷◌, ◌+◌, ◌*◌, ◌%◌};
ghost use Rattle.translation.specs.Bits.{nibble};
ghost use Rattle.trackball.specs.Packets as packets;
ghost use Rattle.trackball.specs.View.{view, bytes_in};

use crate::counters::split;
use crate::trackball::Trackball;
use translation::bits::upper;

// The three bytes of a packet.
#[derive(Clone, Copy)]
pub(crate) struct Packet {
    pub head: u8,
    pub x: u8,
    pub y: u8,
}

// The bytes that a call hands out: four at most. The variant says how many; an array would need a count beside it, and a vector of fixed
// capacity a push that may fail.
#[derive(Clone, Copy)]
pub enum Bytes {
    Nothing,
    One(u8),
    Two(u8, u8),
    Three(u8, u8, u8),
    Four(u8, u8, u8, u8),
}

// The trackball after a call, and the bytes that it hands out.
#[derive(Clone, Copy)]
pub struct Reply {
    pub trackball: Trackball,
    pub bytes: Bytes,
}

// Buttons in bits 0-2, bit 3 one, the signs in 4 and 5, the overflows in 6 and 7.
fn head(buttons: u8, xsign: bool, ysign: bool, xover: bool, yover: bool) -> u8
    ensures { result ≡ buttons % 8 + 8 + 16 * nibble xsign ysign xover yover }
{
    buttons % 8 + 8 + upper(xsign, ysign, xover, yover)
}

impl Trackball {
    // The low bytes follow the first, x before y.
    #[tactic(auto, unfolding(crate::specs::Packets::packet))]
    pub(crate) fn packet(self) -> Packet
        ensures { (result.head ∷ result.x ∷ result.y ∷ []) ≡ packets.packet (view self) }
    {
        let x = split(self.x.sum);
        let y = split(self.y.sum);
        Packet {
            head: head(
                self.buttons,
                x.negative,
                y.negative,
                self.x.overflow,
                self.y.overflow,
            ),
            x: x.low,
            y: y.low,
        }
    }

    // While reporting is enabled a packet, after which there is no movement; else nothing, and the sums stay.
    #[tactic(auto, unfolding(crate::specs::Packets::reported, crate::specs::Packets::report_bytes))]
    pub fn report(self) -> Reply
        ensures { (view result.trackball ≡ packets.reported (view self)) × (bytes_in result.bytes ≡ packets.report_bytes (view self)) }
    {
        if self.reporting {
            let p = self.packet();
            Reply {
                trackball: self.without_movement(),
                bytes: Bytes::Three(p.head, p.x, p.y),
            }
        } else {
            Reply {
                trackball: self,
                bytes: Bytes::Nothing,
            }
        }
    }
}
