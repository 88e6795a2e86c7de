// The bytes that a host sends to the trackball.
ghost use Rattle.std.specs.Prelude.{◌≡◌};
ghost use Rattle.trackball.specs.Commands as commands;
ghost use Rattle.trackball.specs.View.{view, bytes_in};

use crate::packets::{Bytes, Reply};
use crate::trackball::Trackball;

// The field's acknowledge, its resend, and a self-test that was passed; 00h is the device number of a mouse.
const ACKNOWLEDGE: u8 = 0xFA;

const RESEND: u8 = 0xFE;

const PASSED: u8 = 0xAA;

const MOUSE: u8 = 0x00;

impl Trackball {
    // EBh reads a packet, F2h asks for the device number, F4h and F5h enable and disable reporting, FFh resets. The byte is data of the wire, so it
    // is matched as it is.
    #[tactic(auto, unfolding(crate::specs::Commands::received, crate::specs::Commands::reply_bytes))]
    pub fn reply(self, byte: u8) -> Reply
        ensures { (view result.trackball ≡ commands.received byte (view self)) × (bytes_in result.bytes ≡ commands.reply_bytes byte (view self)) }
    {
        match byte {
            0xEB => {
                let p = self.packet();
                Reply {
                    trackball: self.without_movement(),
                    bytes: Bytes::Four(ACKNOWLEDGE, p.head, p.x, p.y),
                }
            }
            0xF2 => Reply {
                trackball: self,
                bytes: Bytes::Two(ACKNOWLEDGE, MOUSE),
            },
            0xF4 => Reply {
                trackball: self.with_reporting(true),
                bytes: Bytes::One(ACKNOWLEDGE),
            },
            0xF5 => Reply {
                trackball: self.with_reporting(false),
                bytes: Bytes::One(ACKNOWLEDGE),
            },
            0xFF => Reply {
                trackball: self.with_reporting(false).without_movement(),
                bytes: Bytes::Three(ACKNOWLEDGE, PASSED, MOUSE),
            },
            _ => Reply {
                trackball: self,
                bytes: Bytes::One(RESEND),
            },
        }
    }
}
