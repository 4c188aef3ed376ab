// Text values: cut to a precision, and in capitals.
// Ported from format_string.rs of datafusion-spark 55.2.0 (Apache-2.0; see NOTICE): the cut of format_str and the capitals of
// format_string.
ghost use Rattle.std.specs.Prelude.{◌≡◌, map, ◌≤◌, ◌<◌, length};
ghost use Rattle.writing.specs.Writers.{Wrote, Put};
ghost use Rattle.fields.specs.Cut.{back_to, cut_length, cut_to, capital, cased};

// The last place up to n that does not stand inside a character. Not `1..=n`: a loop has no counter of it from its end.
#[tactic(auto, using(crate::proofs::Cuts::back_start, crate::proofs::Cuts::back_inside), unfolding(crate::specs::Cut::back_to))]
fn char_start(s: &[u8], n: usize) -> usize
    requires { n < length s.now }
    ensures { result ≡ back_to n s.now }
{
    for i in (1..n + 1).rev() {
        if !matches!(s[i], 128..=191) {
            return i;
        }
    }
    0
}

// How many bytes of s are left at a precision of n.
#[tactic(auto, unfolding(crate::specs::Cut::cut_length))]
fn cut_len(s: &[u8], n: usize) -> usize
    ensures { result ≡ cut_length n s.now }
{
    if n < s.len() {
        char_start(s, n)
    } else {
        s.len()
    }
}

// The part of a text that a precision leaves.
#[tactic(auto, unfolding(crate::specs::Cut::cut_to))]
pub fn cut<'a>(precision: Option<u32>, text: &'a [u8]) -> &'a [u8]
    ensures { result.now ≡ cut_to precision text.now }
{
    match precision {
        None => text,
        Some(p) => &text[..cut_len(text, p as usize)],
    }
}

// Copies the text in capitals. Answers its length. By index: behind a loop over `iter_mut().zip(text)` it is not known what was written.
fn write_upper(out: &mut [u8], text: &[u8]) -> usize
    requires { length text.now ≤ length out.old }
    ensures { Wrote out.old (map capital text.now) result out.new }
{
    for (i, b) in text.iter().enumerate() {
        out[i] = b.to_ascii_uppercase();
    }
    text.len()
}

// Copies a text, in capitals where upper is set. Answers its length. Here and below upper is a flag, as in the definition; a closure's contract is longer.
#[tactic(auto, unfolding(crate::specs::Cut::cased))]
pub(crate) fn write_cased(out: &mut [u8], text: &[u8], upper: bool) -> usize
    requires { length text.now ≤ length out.old }
    ensures { Wrote out.old (cased upper text.now) result out.new }
{
    if upper {
        write_upper(out, text)
    } else {
        writing::write_text(out, text)
    }
}

// Copies a text, in capitals where upper is set, where there is room for it. Answers its length.
#[tactic(auto, using(crate::proofs::Cased::lengths, writing::proofs::Laid::rooms))]
pub fn put_cased(out: &mut [u8], text: &[u8], upper: bool) -> usize
    ensures { Put out.old (cased upper text.now) result out.new }
{
    if text.len() <= out.len() {
        write_cased(out, text, upper);
    }
    text.len()
}
