// The two editions of an image.
ghost use Rattle.std.specs.Prelude.{◌≡◌};
ghost use Rattle.image_bytes.specs.Edition as edition;

use crate::layout::{BODY, FIRST_BODY};

// An image's format version, which its trailer names.
#[derive(Clone, Copy, PartialEq, Eq)]
pub enum Edition {
    First,
    Second,
}

impl From<Edition> for u8 {
    ghost from_gives = { λ e n. n ≡ edition.number e };

    fn from(edition: Edition) -> u8 {
        match edition {
            Edition::First => 1,
            Edition::Second => 2,
        }
    }
}

impl Edition {
    // How many bytes a body has.
    pub fn body_size(self) -> usize
        ensures { result ≡ edition.size self }
    {
        match self {
            Edition::First => FIRST_BODY,
            Edition::Second => BODY,
        }
    }
}
