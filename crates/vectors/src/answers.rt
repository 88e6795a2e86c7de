// What a run leaves, printed: its refusal, and its answers.
use crate::print::{Hex, line};
use refusals::refusal::{Refusal, number_of};
use std::io;
use std::io::Write;

// An answer to an event.
pub type Answer = [u8; 9];

// The space for the answers to the longest list, and for more.
pub type Space = [Answer; 7003];

// What the space holds before a run.
pub const MARK: u8 = 0xA5;

// A line for each.
pub fn put_answers<W: Write>(out: &mut W, answers: &[Answer]) -> io::Result<()> {
    for answer in answers {
        out.write_all(&line(answer))?;
    }
    Ok(())
}

// A sum over bytes that goes by their order.
fn digest(bytes: &[u8]) -> u16 {
    bytes.iter().fold(1, |sum, byte| {
        ((u32::from(sum) * 31 + u32::from(*byte)) % 65521) as u16
    })
}

// A sum over the answers, and the last one.
fn put_sum<W: Write>(out: &mut W, answers: &[Answer]) -> io::Result<()> {
    let sum = digest(answers.as_flattened()).to_be_bytes();
    write!(out, ", sum {}, ", Hex(&sum))?;
    match answers.last() {
        Some(answer) => writeln!(out, "last {}", Hex(answer)),
        None => writeln!(out, "none"),
    }
}

// The number of the check that refuses, 0 for none.
pub fn put_refusal<W: Write>(out: &mut W, outcome: Result<(), Refusal>) -> io::Result<()> {
    write!(out, ": refusal {:02X}", number_of(outcome))
}

// The refusal, whether the space that the run has not written is as it was before, and of an accepted run its answers.
pub fn put_outcome<W: Write>(
    out: &mut W,
    outcome: Result<(), Refusal>,
    written: &[Answer],
    rest: &[Answer],
) -> io::Result<()> {
    put_refusal(out, outcome)?;
    if rest.as_flattened().iter().all(|byte| *byte == MARK) {
        write!(out, ", untouched")?;
    } else {
        write!(out, ", touched")?;
    }
    match outcome {
        Ok(()) => put_sum(out, written),
        Err(_) => writeln!(out),
    }
}
