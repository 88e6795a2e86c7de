// The list of a case: its events, three bytes each.
ghost use Rattle.std.specs.Prelude.{◌≡◌, ◌≤◌, length};

use crate::text::{Malformed, hexadecimal};

// One event more than a list may have.
pub const LIST_SIZE: usize = 21003;

#[derive(Drop)]
pub struct List {
    bytes: [u8; LIST_SIZE],
    filled: usize,
    ghost inside: { filled ≤ length bytes },
}

impl List {
    pub fn new() -> List {
        List {
            bytes: [0; LIST_SIZE],
            filled: 0,
        }
    }

    // No events. The bytes behind those that count stay: they are written before they are read.
    pub fn clear(&mut self) {
        self.filled = 0;
    }

    pub fn events(&self) -> &[u8]
        ensures { length result.now ≤ 21003 }
    {
        &self.bytes[..self.filled]
    }

    // Events at the end of the list; none where the text is malformed.
    pub fn add(&mut self, text: &[u8]) -> Result<(), Malformed> {
        let filled = self.filled;
        self.filled = filled + hexadecimal(text, &mut self.bytes[filled..])?;
        Ok(())
    }

    // The events over and over, to the end of the buffer: each byte is read where it was just written. Those that count stay as many as they are.
    pub fn repeat(&mut self) {
        let filled = self.filled;
        for at in filled..LIST_SIZE {
            self.bytes[at] = self.bytes[at - filled];
        }
    }

    // All of the buffer.
    pub fn whole(&self) -> &[u8; LIST_SIZE] {
        &self.bytes
    }
}
