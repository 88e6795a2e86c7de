// Frames and scan codes as single numbers.
ghost use Rattle.std.specs.Prelude.{◌≡◌, ◌<◌, ◌≤◌};
ghost use Rattle.translation.specs.Frames.{check, frame, verdict};
ghost use Rattle.translation.specs.KeyTable.{built_in};
ghost use Rattle.translation.specs.ScanCodes as codes;
ghost use Rattle.calugnid.specs.Numbers.{check_number, yield_number, flag_number, translation_number};

use translation::frames::{Verdict, frame_of, judge};
use translation::key_table::built_in_entry;
use translation::scan_codes::translate;

fn number_of(v: Verdict) -> u16
    ensures { result ≡ check_number (verdict v) }
{
    match v {
        Verdict::Sound(byte) => byte.into(),
        Verdict::Parity => 256,
        Verdict::Broken => 257,
        Verdict::Noise => 258,
    }
}

// The frame check: the byte of a sound frame, 256 for a parity error, 257 for a broken frame, 258 for noise.
#[unsafe(no_mangle)]
pub extern "C" fn calugnid_judge(frame: u16) -> u16
    ensures { result ≡ check_number (check frame) }
{
    number_of(judge(frame))
}

// The frame of a byte.
#[unsafe(no_mangle)]
pub extern "C" fn calugnid_frame(byte: u8) -> u16
    ensures { result ≡ frame byte }
{
    frame_of(byte)
}

fn yielded(y: Option<u8>) -> u16
    ensures { (result ≡ yield_number (codes.yielded y)) × (result < 512) }
{
    match y {
        None => 0,
        Some(byte) => 256 + u16::from(byte),
    }
}

fn flag(breaks: bool) -> u16
    ensures { (result ≡ flag_number breaks) × (result ≤ 512) }
{
    if breaks { 512 } else { 0 }
}

// A byte of scan code set 2 with the break flag, by the built-in key table: bits 0-7 the byte of set 1, bit 8 set where there is one, bit 9 the flag after it.
#[unsafe(no_mangle)]
pub extern "C" fn calugnid_translate(byte: u8, breaks: bool) -> u16
    ensures { result ≡ translation_number (codes.translate built_in byte breaks) }
{
    let t = translate(built_in_entry(byte), byte, breaks);
    yielded(t.yields) + flag(t.breaks)
}
