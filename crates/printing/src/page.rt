// The whole text of a list: the header and a line an event, or the refusal.
ghost use Rattle.std.specs.Prelude.{◌≡◌, ◌++◌, ◌+◌, ◌*◌, ◌/◌, ◌≤◌, length, IfOk, IfErr};
ghost use Rattle.refusals.specs.Numbers.{outcome};
ghost use Rattle.translation.specs.KeyTable.{built_in};
ghost use Rattle.machine.specs.Settings.{settings_of};
ghost use Rattle.printing.specs.Lines.{lines};
ghost use Rattle.printing.specs.Page.{header, refused_text, over, print_refusal, Written, Paged, Printed};

use crate::text_lines::write_lines;
use controller::run::{check_list, run_fresh};
use refusals::refusal::Refusal;
use state::state::Setup;

const HEADER: [u8; 28] = *b"rf rd old st p2 pu to fl fh\n";

const REFUSED: [u8; 10] = *b"refused 7\n";

// What is printed of a refused list. Where it does not fit, 0 bytes are written: so the count is no Option.
fn print_refused(out: &mut [u8]) -> usize
    ensures { Written refused_text out.old result out.new }
{
    if out.len() < REFUSED.len() {
        return 0;
    }
    out[..REFUSED.len()].copy_from_slice(&REFUSED);
    REFUSED.len()
}

// The header, and a line for each nine bytes of the answers.
fn print_answers(answers: &[u8], out: &mut [u8])
    requires { 28 + 27 * (length answers.now / 9) ≤ length out.old }
    ensures { out.new ≡ over (header ++ lines (length answers.now / 9) answers.now) out.old }
{
    out[..HEADER.len()].copy_from_slice(&HEADER);
    write_lines(answers, &mut out[HEADER.len()..]);
}

// The page of a list that can be run, and its length. Where a check refuses, neither buffer is written.
fn print_page(
    setup: Setup,
    list: &[u8],
    answers: &mut [u8],
    out: &mut [u8],
) -> Result<usize, Refusal>
    ensures refusal { outcome result ≡ print_refusal (settings_of setup.options setup.version built_in) list.now answers.old out.old }
    ensures unwritten { IfErr result (λ _. (answers.new ≡ answers.old) × (out.new ≡ out.old)) }
    ensures written { IfOk result (λ n. Paged (settings_of setup.options setup.version built_in) list.now answers.old out.old n answers.new out.new) }
{
    check_list(list.len(), answers.len())?;
    let count = list.len() / 3;
    let length = HEADER.len() + 27 * count;
    if out.len() < length {
        return Err(Refusal::AnswerSpace);
    }
    run_fresh(setup, list, answers)?;
    print_answers(&answers[..9 * count], out);
    Ok(length)
}

// What printing came to: the check that refuses the list or a buffer, if one does, and how many bytes of text were written. A refused list has a text
// too, so this is no `Result`.
#[derive(Clone, Copy)]
pub struct Printout {
    pub refusal: Option<Refusal>,
    pub written: usize,
}

// Runs a list from a start with the settings that the options name, its answers in one buffer and its text in the other. Where a buffer is too small
// for its bytes, neither is written.
pub fn print_list(setup: Setup, list: &[u8], answers: &mut [u8], out: &mut [u8]) -> Printout
    ensures { Printed (settings_of setup.options setup.version built_in) list.now answers.old out.old result answers.new out.new }
{
    match print_page(setup, list, answers, out) {
        Ok(written) => Printout {
            refusal: None,
            written,
        },
        Err(Refusal::ListLength) => Printout {
            refusal: Some(Refusal::ListLength),
            written: print_refused(out),
        },
        Err(refusal) => Printout {
            refusal: Some(refusal),
            written: 0,
        },
    }
}
