// Lines of text and of numbers, written in a lent slice, and not by a format macro: the library promises its bytes in a String, which is on the heap.
// Knows nothing of formats, rows or printing.
ghost use Rattle.std.specs.Prelude.{◌+◌, ◌*◌, ◌≤◌, length};
ghost use Rattle.writing.specs.Writers.{Wrote};
ghost use Rattle.numerals.specs.Digits.{decimal};
ghost use Rattle.answers.specs.Lines.{line, numbers_line, end_lines};

// Writes a number on a line. Answers the line's length.
#[tactic(auto, using(crate::proofs::LineTexts::ended))]
fn write_number_line(out: &mut [u8], x: u64) -> usize
    requires { length (decimal x) + 1 ≤ length out.old }
    ensures { Wrote out.old (line (decimal x)) result out.new }
{
    let n = numerals::write_decimal(out, x);
    out[n] = b'\n';
    n + 1
}

// Writes a text and a line end. Answers the line's length.
#[tactic(auto, using(crate::proofs::LineTexts::ended))]
pub(crate) fn write_line(out: &mut [u8], text: &[u8]) -> usize
    requires { length text.now + 1 ≤ length out.old }
    ensures { Wrote out.old (line text.now) result out.new }
{
    let end = writing::write_text(out, text);
    out[end] = b'\n';
    end + 1
}

// Writes a word and two numbers on a line. Answers the line's length. A number has at most 20 digits.
#[tactic(auto, using(numerals::proofs::Digits::at_most_twenty, crate::proofs::LineTexts::line_length, std::proofs::lemmas::Grind::common_steps))]
pub(crate) fn write_numbers(out: &mut [u8], word: &[u8], a: u64, b: u64) -> usize
    requires { length word.now + 42 ≤ length out.old }
    ensures { (Wrote out.old (numbers_line word.now a b) result out.new) × (result ≤ length word.now + 42) }
{
    let i = writing::write_text(out, word);
    let j = i + numerals::write_decimal(&mut out[i..], a);
    out[j] = b' ';
    let k = j + 1;
    k + write_number_line(&mut out[k..], b)
}

// Writes ends, one a line. Answers the length of the lines. An end has at most 10 digits.
#[tactic(auto, using(crate::proofs::LineTexts::at_most_ten, crate::proofs::LineTexts::line_length))]
pub(crate) fn write_ends(out: &mut [u8], ends: &[u32]) -> usize
    requires { 11 * length ends.now ≤ length out.old }
    ensures { (Wrote out.old (end_lines ends.now) result out.new) × (result ≤ 11 * length ends.now) }
{
    let mut at = 0;
    for &end in ends {
        at += write_number_line(&mut out[at..], u64::from(end));
    }
    at
}
