// The cases of the lists, read from standard input. How they are written is said there.
use crate::answers::{MARK, Space, put_answers, put_outcome, put_refusal};
use crate::lists::List;
use crate::sample::PLAIN;
use crate::text::{Malformed, counted, cut, decimal, fill};
use controller::run::run_with_table;
use refusals::refusal::Refusal;
use state::state::Setup;
use std::io;
use std::io::Write;
use translation::key_table::{Table, built_in, check_table};

// One byte more than all the cases may have, so that a longer input is noticed.
pub const READ_MOST: usize = 65536;

// Why a line is not carried out.
#[derive(Debug, Drop)]
enum Trouble {
    Malformed,
    Io(io::Error),
}

impl From<Malformed> for Trouble {
    fn from(_malformed: Malformed) -> Trouble {
        Trouble::Malformed
    }
}

impl From<io::Error> for Trouble {
    fn from(error: io::Error) -> Trouble {
        Trouble::Io(error)
    }
}

// What is to be run: the setup and the key table of the start, and the list.
#[derive(Drop)]
struct Case {
    setup: Setup,
    table: Table,
    list: List,
}

impl Case {
    // What a case has until it says otherwise. The list is cleared in its place: to make one anew costs as much as all that a short case does.
    fn restart(&mut self) {
        self.setup = PLAIN;
        self.table = built_in();
        self.list.clear();
    }

    // The options byte and the version byte. A malformed text gives those that it has.
    fn start(&mut self, text: &[u8]) -> Result<(), Malformed> {
        let mut bytes = [0; 2];
        let read = fill(text, &mut bytes);
        let [options, version] = bytes;
        self.setup = Setup { options, version };
        read
    }

    // An entry of the key table, as its byte and its value. A malformed text gives those that it has.
    fn entry(&mut self, text: &[u8]) -> Result<(), Malformed> {
        let mut bytes = [0; 2];
        let read = fill(text, &mut bytes);
        let [at, value] = bytes;
        self.table[usize::from(at)] = value;
        read
    }

    // A list run from the case's start.
    fn answer(&self, list: &[u8], answers: &mut [u8]) -> Result<(), Refusal> {
        run_with_table(self.setup, &self.table, list, answers)
    }

    // The case's own list, and each answer. A call of its own, as below, so that the space is on the stack while a list is run and no longer.
    #[inline(never)]
    fn run<W: Write>(&self, out: &mut W) -> io::Result<()> {
        let list = self.list.events();
        let mut space: Space = [[MARK; 9]; 7003];
        let outcome = self.answer(list, space.as_flattened_mut());
        if outcome.is_err() {
            put_refusal(out, outcome)?;
            return writeln!(out);
        }
        writeln!(out)?;
        put_answers(out, &space[..list.len() / 3])
    }

    // The list over and over: that many bytes of it, with that much space for the answers.
    #[inline(never)]
    fn repeat<W: Write>(&mut self, out: &mut W, text: &[u8]) -> Result<(), Trouble> {
        let (bytes, room) = cut(text);
        let bytes = decimal(bytes)?;
        let room = decimal(room)?;
        if self.list.events().is_empty() {
            return Err(Trouble::Malformed);
        }
        self.list.repeat();
        let list = self.list.whole().get(..bytes).ok_or(Malformed)?;
        let mut space: Space = [[MARK; 9]; 7003];
        let lent = space.as_flattened_mut().get_mut(..room).ok_or(Malformed)?;
        let outcome = self.answer(list, lent);
        let events = if outcome.is_ok() { list.len() / 3 } else { 0 };
        let (written, rest) = space.split_at(events);
        put_outcome(out, outcome, written, rest)?;
        Ok(())
    }

    // The check of as many bytes of the table and a zero behind it.
    fn check<W: Write>(&self, out: &mut W, text: &[u8]) -> Result<(), Trouble> {
        let mut bytes = [0; 257];
        bytes[..256].copy_from_slice(&self.table);
        let length = decimal(text)?;
        let table = bytes.get(..length).ok_or(Malformed)?;
        put_refusal(out, check_table(table))?;
        writeln!(out)?;
        Ok(())
    }

    // A line by its first word and what stands behind it.
    fn obey<W: Write>(&mut self, out: &mut W, word: &[u8], rest: &[u8]) -> Result<(), Trouble> {
        match word {
            // An empty line and one that is there for the reader.
            b"" | b"#" => {}
            b"name" => {
                self.restart();
                out.write_all(rest)?;
            }
            b"start" => self.start(rest)?,
            b"entry" => self.entry(rest)?,
            b"events" => self.list.add(rest)?,
            b"run" => self.run(out)?,
            b"repeat" => self.repeat(out, rest)?,
            b"check" => self.check(out, rest)?,
            _ => return Err(Trouble::Malformed),
        }
        Ok(())
    }

    // A line, carried out; one that could not be read is printed, so that the comparison with what is expected fails there.
    fn carry_out<W: Write>(&mut self, out: &mut W, line: &[u8]) -> io::Result<()> {
        let (word, rest) = cut(line);
        match self.obey(out, counted(word), rest) {
            Ok(()) => Ok(()),
            Err(Trouble::Io(error)) => Err(error),
            Err(Trouble::Malformed) => {
                write!(out, "\nmalformed: ")?;
                out.write_all(line)?;
                writeln!(out)
            }
        }
    }
}

pub fn run_all<W: Write>(out: &mut W, text: &[u8]) -> io::Result<()> {
    if text.len() == READ_MOST {
        writeln!(out, "more cases than fit")?;
    }
    // Of zeros, which are made in their place: a case that a call hands back would stand on the stack twice.
    let mut case = Case {
        setup: PLAIN,
        table: [0; 256],
        list: List::new(),
    };
    case.restart();
    for line in text.split(|byte| *byte == b'\n') {
        case.carry_out(out, line)?;
    }
    Ok(())
}
