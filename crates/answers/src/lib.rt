// The whole answer of the program `sheet` to its input, made in a lent slice. crates/sheet/README.md has the layout of both.
#![tactic(auto)]

pub mod lines;

ghost use Rattle.std.specs.Prelude.{◌≤◌, length};
ghost use Rattle.writing.specs.Writers.{Wrote};
ghost use Rattle.answers.specs.Answers.{room, slots, printed_answer, answer_text, sheet_text, most_answer};
ghost use Rattle.answers.specs.Writers.{WroteAccepted};

// Writes the answer of an accepted call. Answers its length. That the longest answer has room stands in each contract here, and not in a type of so many
// bytes: any slice with room will do.
#[tactic(auto, using(crate::proofs::LineTexts::line_length))]
fn write_accepted(out: &mut [u8], text: &[u8], ends: &[u32]) -> usize
    requires { (most_answer ≤ length out.old) × (length text.now ≤ room) × (length ends.now ≤ slots) }
    ensures { WroteAccepted out.old text.now ends.now result out.new }
{
    let i = lines::write_numbers(out, b"ok ", text.len() as u64, ends.len() as u64);
    let j = i + lines::write_line(&mut out[i..], text);
    j + lines::write_ends(&mut out[j..], ends)
}

// Prints a row under a format and writes the answer. Answers its length.
#[tactic(auto, using(crate::proofs::Printed::printing))]
fn write_printed(out: &mut [u8], fmt: &[u8], row: &[u8]) -> usize
    requires { most_answer ≤ length out.old }
    ensures { Wrote out.old (printed_answer fmt.now row.now) result out.new }
{
    let mut text = [0u8; 16384];
    let mut ends = [0u32; 512];
    match printing::print(fmt, row, &mut text, &mut ends) {
        Ok(found) => write_accepted(
            out,
            &text[..found.length as usize],
            &ends[..found.pieces as usize],
        ),
        Err(stop) => {
            let number = stop.refusal.number() as u64;
            lines::write_numbers(out, b"no ", number, stop.place as u64)
        }
    }
}

// Writes the answer to an input of a length that is looked at. Answers its length.
#[tactic(auto, using(crate::proofs::Parts::parts))]
fn write_parts(out: &mut [u8], input: &[u8]) -> usize
    requires { most_answer ≤ length out.old }
    ensures { Wrote out.old (answer_text input.now) result out.new }
{
    if input.len() < 2 {
        return lines::write_line(out, b"no input");
    }
    let n = words::word_at::<2>(input, 0) as usize;
    if input.len() - 2 < n {
        return lines::write_line(out, b"no input");
    }
    write_printed(out, &input[2..2 + n], &input[2 + n..])
}

// Writes the whole answer to an input. Answers its length.
pub fn write_answer(out: &mut [u8], input: &[u8]) -> usize
    requires { most_answer ≤ length out.old }
    ensures { Wrote out.old (sheet_text input.now) result out.new }
{
    write_parts(out, &input[..input.len().min(65536)])
}
