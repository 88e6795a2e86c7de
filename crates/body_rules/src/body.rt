// The bytes of a body by name: those that the body rules speak of. This is the paper's layout of an image, and not the state's, though the bytes are
// the same: that the two agree is proved (`Exact` in image/specs/Restored). A body may break every rule: so it is no struct, and each rule is a test
// by its name, of bits by `/` and `%` as its definition has them.
pub type Body = [u8; 64];

// Seven flags, a bit each.
pub const FLAGS: usize = 1;

// The latches of P20 and P21 in bits 0 and 1.
pub const LATCHES: usize = 3;

// The pending code, and the cell of code 2.
pub const PENDING: usize = 4;

pub const CELL: usize = 5;

// Whether there is an overlay, and its nibble.
pub const OVERLAY: usize = 6;

pub const NIBBLE: usize = 7;

// The byte being sent: to nobody (0), the keyboard (1) or the mouse (2).
pub const SENT_TO: usize = 8;

pub const SENT: usize = 9;

// The lock code: how long it is, the position, and where its bytes start and end.
pub const LENGTH: usize = 10;

pub const POSITION: usize = 11;

pub const CODE: usize = 12;

pub const CODE_END: usize = 28;

// The mode byte, cell 0 of the RAM.
pub const MODE: usize = 28;

// The options, mouse lock in bit 0, AT mode in bit 1, the second command set in bit 2; and in bit 3 whether D1h may write P22 and P23.
pub const OPTIONS: usize = 60;

// The latches of P10-P15 in bits 0-5, and of P22, P23 and P25 in bits 0, 1 and 3.
pub const INPUT_LATCHES: usize = 61;

pub const HIGH_LATCHES: usize = 62;

// The transmit time-out in bit 0.
pub const TTIM: usize = 63;
