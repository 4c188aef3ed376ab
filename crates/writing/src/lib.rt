// Writers of bytes into the start of a lent slice. What lies past the text keeps its content. The next writer takes the rest, `&mut out[n..]`, which
// is 01's form; what one leaves is a word, `Wrote` or `Put`, and of a struct of a slice and a place each contract would say the place besides.
#![tactic(auto, using(crate::proofs::Laid::rooms), unfolding(crate::specs::Laid::laid))]

ghost use Rattle.std.specs.Prelude.{◌≡◌, [], ◌∷◌, ◌≤◌, length, replicate};
ghost use Rattle.writing.specs.Laid.{laid};
ghost use Rattle.writing.specs.Writers.{Wrote, Put};

// Copies the text. Answers its length. Not by copy_from_slice: its call, also for an empty text, takes 3 % of a short row.
pub fn write_text(out: &mut [u8], text: &[u8]) -> usize
    requires { length text.now ≤ length out.old }
    ensures { Wrote out.old text.now result out.new }
{
    for (i, &b) in text.iter().enumerate() {
        out[i] = b;
    }
    text.len()
}

// Writes the byte b n times. Answers n. Not by fill: with it some callers are no longer compiled into theirs, which takes 3 % of a short row.
pub fn write_fill(out: &mut [u8], n: usize, b: u8) -> usize
    requires { n ≤ length out.old }
    ensures { (result ≡ n) × (out.new ≡ laid out.old (replicate n b)) }
{
    for x in &mut out[..n] {
        *x = b;
    }
    n
}

// Copies the text where there is room for it. Answers its length. Not with fields' put_cased by a writer as a closure: its contract is longer than both.
pub fn put_text(out: &mut [u8], text: &[u8]) -> usize
    ensures { Put out.old text.now result out.new }
{
    if text.len() <= out.len() {
        write_text(out, text);
    }
    text.len()
}

// Writes a byte where there is room for it. Answers 1.
pub fn put_byte(out: &mut [u8], b: u8) -> usize
    ensures { Put out.old (b ∷ []) result out.new }
{
    put_text(out, &[b])
}
