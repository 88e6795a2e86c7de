// Reads a list of events to the end of standard input, and prints its page.
#![tactic(auto)]

use printing::page::print_list;
use reading::read_full;
use state::state::Setup;
use std::io;

// One byte more than the longest list, so that a longer input is noticed.
const READ_MOST: usize = 21001;
// The answers to 7,000 events, nine bytes each.
const ANSWERS: usize = 63000;
// Their page: a header of 28 bytes, and 27 a line.
const PAGE: usize = 189028;
// The settings of a start that names none.
const ORDINARY: Setup = Setup {
    options: 0,
    version: 0,
};

fn main(rt: HostRuntime) -> io::Result<()> {
    let mut list = [0u8; READ_MOST];
    let mut answers = [0u8; ANSWERS];
    let mut page = [0u8; PAGE];
    let got = read_full(&mut rt.reader(), &mut list)?;
    let printed = print_list(ORDINARY, &list[..got], &mut answers, &mut page);
    rt.write_all(&page[..printed.written])
}
