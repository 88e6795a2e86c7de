// An event: its kind, and its value.
ghost use Rattle.std.specs.Prelude.{◌≡◌, ◌/◌, ◌%◌};
ghost use Rattle.translation.specs.Bits as bits;
ghost use Rattle.state.specs.Kinds.{IsKind};

use refusals::refusal::Refusal;
use translation::bits::word;

// What happens: the host reads or writes a port, a device sends a frame, a byte that was sent is taken or not, the pins change.
#[derive(Clone, Copy, Debug, PartialEq, Eq)]
pub enum Kind {
    ReadData,
    WriteData,
    ReadStatus,
    WriteCommand,
    KeyboardFrame,
    MouseFrame,
    Taken,
    TimeOut,
    Pins,
}

impl TryFrom<u8> for Kind {
    type Error = Refusal;

    ghost try_from_gives = { λ n r. IsKind n r };

    fn try_from(number: u8) -> Result<Kind, Refusal> {
        match number {
            0 => Ok(Kind::ReadData),
            1 => Ok(Kind::WriteData),
            2 => Ok(Kind::ReadStatus),
            3 => Ok(Kind::WriteCommand),
            4 => Ok(Kind::KeyboardFrame),
            5 => Ok(Kind::MouseFrame),
            6 => Ok(Kind::Taken),
            7 => Ok(Kind::TimeOut),
            8 => Ok(Kind::Pins),
            _ => Err(Refusal::UnknownKind),
        }
    }
}

// A value of two bytes, as an event has it.
#[derive(Clone, Copy)]
pub struct Value {
    pub low: u8,
    pub high: u8,
}

impl Value {
    pub fn word(self) -> u16
        ensures { result ≡ bits.word self.low self.high }
    {
        word(self.low, self.high)
    }
}

impl From<u16> for Value {
    ghost from_gives = { λ n v. (v.low ≡ n % 256) × (v.high ≡ n / 256) };

    fn from(value: u16) -> Value {
        let [low, high] = value.to_le_bytes();
        Value { low, high }
    }
}
