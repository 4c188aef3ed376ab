// Reading a format: the next piece from a cursor on. A format checked against kinds is a pass over its pieces (`printing::passes`).
// Ported from format_string.rs of datafusion-spark 55.2.0 (Apache-2.0; see NOTICE): Formatter::parse. The original keeps a
// vector of elements; here a cursor reads the format again from an offset.
#![tactic(auto)]

pub mod arguments;
pub mod scanning;

ghost use Rattle.std.specs.Prelude.{◌≡◌, ◌<◌, length};
ghost use Rattle.parsing.specs.Pieces.{start, argument_at, element_at, piece_at};
ghost use Rattle.parsing.specs.Check.{argument_of};

use arguments::Index;
use refusals::{Refusal, Stop};
use specifiers::Element;

// A piece: part of the format as it stands, by offsets, which is 01's form, a byte that does not stand in it (`%n`), or an element.
#[derive(Clone, Copy)]
pub enum Piece {
    Fixed { start: usize, len: usize },
    Byte(u8),
    Element(Element),
}

// Where reading stands: the offset, the running count, and the argument that `%<` takes. This is 0 for none and no Option, since a cursor of any numbers then
// names an argument from 1 on.
#[derive(Clone, Copy, Default)]
pub struct Cursor {
    pub at: usize,
    pub count: usize,
    pub last: usize,
}

// The piece at a cursor and the cursor behind it, or what refuses it; its place is the cursor's.
pub type Step = Result<(Piece, Cursor), Refusal>;

// Where reading ends: behind the last piece, or at a refusal.
pub type Ended = Result<(), Stop>;

// What checking answers where it accepts: the number of pieces, and the largest argument index, 0 if none.
#[derive(Clone, Copy, PartialEq, Eq)]
pub struct Checked {
    pub pieces: usize,
    pub largest: usize,
}

// The argument of the element whose `%` stands at the cursor.
#[tactic(auto, unfolding(crate::specs::Pieces::argument_at))]
fn take_argument(fmt: &[u8], c: Cursor, kinds: usize) -> Result<Index, Refusal>
    requires { c.at < length fmt.now }
    ensures { result ≡ argument_at fmt.now kinds c }
{
    let second = c.at + 1;
    if specifiers::is_byte(fmt, second, b'<') {
        return arguments::same_index(c.last, second + 1, c.count, kinds);
    }
    arguments::take_index(fmt, second, c.count, kinds)
}

// The element whose `%` stands at the cursor.
#[tactic(auto, using(crate::proofs::Indexes::argument_named), unfolding(crate::specs::Pieces::element_at))]
fn take_element(fmt: &[u8], kinds: &[u8], c: Cursor) -> Step
    requires { c.at < length fmt.now }
    ensures { result ≡ element_at fmt.now kinds.now c }
{
    let index = take_argument(fmt, c, kinds.len())?;
    let argument = index.argument;
    let byte = kinds[argument - 1];
    let (element, at) = specifiers::take_conversion_specifier(fmt, index.next, argument, byte)?;
    let next = Cursor {
        at,
        count: index.count,
        last: argument,
    };
    Ok((Piece::Element(element), next))
}

// The next piece from a cursor on: behind the format's end, an empty one.
#[tactic(auto, using(crate::proofs::Progress::text_in), unfolding(crate::specs::Pieces::piece_at, crate::specs::Texts::text_length))]
pub fn next_piece(fmt: &[u8], kinds: &[u8], c: Cursor) -> Step
    ensures { result ≡ piece_at fmt.now kinds.now c }
{
    let at = c.at;
    match fmt.get(at) {
        None => Ok((Piece::Fixed { start: at, len: 0 }, c)),
        Some(b'%') => match fmt.get(at + 1) {
            Some(b'%') => {
                let percent = Piece::Fixed {
                    start: at + 1,
                    len: 1,
                };
                Ok((percent, Cursor { at: at + 2, ..c }))
            }
            Some(b'n') => Ok((Piece::Byte(b'\n'), Cursor { at: at + 2, ..c })),
            _ => take_element(fmt, kinds, c),
        },
        Some(_) => {
            let len = scanning::text_len(&fmt[at..]);
            let text = Piece::Fixed { start: at, len };
            Ok((text, Cursor { at: at + len, ..c }))
        }
    }
}

// The argument that a piece uses, 0 for none: of these the largest is what 01 returns, and arguments count from 1.
pub fn argument_of(piece: Piece) -> usize
    ensures { result ≡ argument_of piece }
{
    match piece {
        Piece::Element(e) => e.argument,
        _ => 0,
    }
}

// Before the first piece.
pub fn first_cursor() -> Cursor
    ensures { result ≡ start }
{
    Cursor::default()
}
