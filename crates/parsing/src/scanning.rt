// Where a piece of fixed text ends: before the next `%`.
ghost use Rattle.std.specs.Prelude.{◌≡◌, ◌+◌, ◌≤◌, ltb, length, drop};
ghost use Rattle.parsing.specs.Texts.{text_length};

// The place of the next `%` from a place on, or the end, byte by byte.
fn next_percent(text: &[u8], at: usize) -> usize
    requires { at ≤ length text.now }
    ensures { result ≡ at + text_length (drop at text.now) }
{
    for i in at..text.len() {
        if text[i] == b'%' {
            return i;
        }
    }
    text.len()
}

// Whether a `%` is among the 32 bytes from a place on. The loop has no way out, so that it can be compiled to operations on blocks.
fn is_in_block(text: &[u8], at: usize) -> bool
    requires { at + 32 ≤ length text.now }
    ensures { result ≡ ltb (text_length (drop at text.now)) 32 }
{
    let mut found = false;
    for i in 0..32 {
        if text[at + i] == b'%' {
            found = true;
        }
    }
    found
}

// How many bytes stand before some place up to the next `%`. How far it lies is a matter of speed alone: behind all blocks without `%`. The first
// step is what is left beside whole blocks, perhaps nothing, so that the last block ends with the text.
// A `for` by steps of 32 tests the first block by a second call, which the compiler then keeps out of the loop: 4,000 bytes of text took 31 % more.
fn skip_blocks(text: &[u8]) -> usize
    ensures { (result ≤ length text.now) × (result + text_length (drop result text.now) ≡ text_length text.now) }
{
    let mut i = 0;
    let mut step = text.len() % 32;
    while 32 <= text.len() - i {
        if is_in_block(text, i) {
            return i;
        }
        i += step;
        step = 32;
    }
    i
}

// How many bytes stand before the next `%`, or before the end: whole blocks first.
pub(crate) fn text_len(text: &[u8]) -> usize
    ensures { result ≡ text_length text.now }
{
    next_percent(text, skip_blocks(text))
}
