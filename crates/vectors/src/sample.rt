// A state with something in each of its parts, and its image.
use image::save::save;
use state::flags::{with_breaks, with_command, with_errors, with_output};
use state::state::{
    CODE, FLAGS, HIGH_LATCHES, INPUT_LATCHES, LATCHES, LENGTH, OPTIONS, OUTPUT, PINS, RAM, Setup,
    State, TTIM, VERSION, start,
};

// The version byte given at each load, which the sample has too.
pub const GIVEN: u8 = 0x5A;

// What a start with no option names.
pub const PLAIN: Setup = Setup {
    options: 0,
    version: 0,
};

// OBF, PERR, C and the break flag.
fn flags() -> u8 {
    let breaks = with_breaks(0, true);
    let command = with_command(breaks, true);
    let errors = with_errors(command, false, true);
    with_output(errors, true, false)
}

// With a lock code of n bytes, of which there is room for sixteen.
pub fn sample(n: u8) -> State {
    let mut s = start(PLAIN);
    s[OUTPUT] = 0x41;
    s[FLAGS] = flags();
    s[PINS] = 0xA5;
    s[LATCHES] = 1;
    s[LENGTH] = n;
    for byte in s[CODE..RAM].iter_mut().take(usize::from(n)) {
        *byte = 0x1E;
    }
    s[RAM] = 0x65;
    s[RAM + 19] = 0x55;
    s[RAM + 31] = 0xFF;
    s[OPTIONS] = 3;
    s[INPUT_LATCHES] = 0x3F;
    s[HIGH_LATCHES] = 0xA;
    s[TTIM] = 1;
    s[VERSION] = GIVEN;
    s
}

#[derive(Clone, Copy)]
pub struct Image(pub [u8; 72]);

impl Image {
    pub fn of(s: &State) -> Image {
        let mut bytes = [0; 72];
        save(s, &mut bytes).unwrap();
        Image(bytes)
    }

    // The image with a byte replaced, where it has such a byte.
    pub fn with(mut self, at: u8, value: u8) -> Image {
        if let Some(byte) = self.0.get_mut(usize::from(at)) {
            *byte = value;
        }
        self
    }

    // The image with the sum of its body put right. Summed here too, so that a wrong sum of the library shows.
    pub fn summed(mut self) -> Image {
        let (words, _) = self.0[..64].as_chunks::<2>();
        let total = words.iter().fold(0u16, |total, word| {
            total.wrapping_add(u16::from_le_bytes(*word))
        });
        self.0[66..68].copy_from_slice(&total.to_le_bytes());
        self
    }
}
