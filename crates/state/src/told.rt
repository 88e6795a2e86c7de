// What an accepted event tells besides the lines. Such an event is its checks, its deed and this, in the crate of its port or device: a function that
// took both as closures would be no shorter.

// The byte read, whether it was old, and the mask of lines pulsed. An event that reads and pulses nothing tells the default.
#[derive(Clone, Copy, Default)]
pub struct Told {
    pub read: u8,
    pub old: bool,
    pub pulse: u8,
}
