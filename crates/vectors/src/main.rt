// Prints what the tests from outside compare with an independent model: frames and translation over every argument, the lists of standard input,
// and images at their edges.
#![tactic(auto)]

ghost use Rattle.std.specs.Prelude.{◌≤◌, length, IfOk};

mod answers;
mod bodies;
mod cases;
mod frames;
mod images;
mod lists;
mod moves;
mod print;
mod sample;
mod text;

use cases::READ_MOST;
use reading::read_full;
use std::io;

// What standard input gives. The reader's own buffer is let go with this call.
#[inline(never)]
fn read_text(rt: &HostRuntime, text: &mut [u8]) -> io::Result<usize>
    ensures { IfOk result (λ n. n ≤ length text.new) }
{
    read_full(&mut rt.reader(), text)
}

fn main(rt: HostRuntime) -> io::Result<()> {
    let mut out = io::writer(&rt);
    frames::put_all(&mut out)?;
    let mut text = [0u8; READ_MOST];
    let got = read_text(&rt, &mut text)?;
    cases::run_all(&mut out, &text[..got])?;
    images::try_all(&mut out)
}
