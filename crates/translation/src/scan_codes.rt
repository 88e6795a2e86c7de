// Scan codes: set 2, as a keyboard sends it, to set 1, as a PC program reads it.
ghost use Rattle.std.specs.Prelude.{◌≡◌, List, ℕ, get_or};
ghost use Rattle.translation.specs.ScanCodes.{translate, raw, translation};

// The break prefix of set 2.
const BREAK: u8 = 0xF0;

// What translation yields, nothing after the break prefix, else a byte; and the break flag after it.
#[derive(Clone, Copy)]
pub struct Translated {
    pub yields: Option<u8>,
    pub breaks: bool,
}

// From a byte of set 2, its entry in any key table and the break flag before it: the code of set 1 and the break flag after it.
#[tactic(auto, unfolding(crate::specs::ScanCodes::translate))]
pub fn translate(entry: u8, byte: u8, breaks: bool) -> Translated
    ensures { (table : List ℕ) → entry ≡ get_or table byte 0 → translation result ≡ translate table byte breaks }
{
    if byte == BREAK {
        return Translated {
            yields: None,
            breaks: true,
        };
    }
    if breaks {
        Translated {
            yields: Some(0x80 + entry % 0x80),
            breaks: false, // the prefix holds for one byte
        }
    } else {
        Translated {
            yields: Some(entry),
            breaks: false,
        }
    }
}

// With translation off a byte stands for itself.
#[tactic(auto, unfolding(crate::specs::ScanCodes::raw))]
pub fn raw(byte: u8) -> Translated
    ensures { translation result ≡ raw byte }
{
    Translated {
        yields: Some(byte),
        breaks: false,
    }
}
