// Frames and scan codes on the PS/2 wire. Nothing here depends on the controller.
#![tactic(auto)]

pub mod bits;
pub mod frames;
pub mod key_table;
pub mod scan_codes;
