// The text of one piece of a format, for a row: what is handed out of the format or the row, and its writer, which writes where there is room.
// Ported from format_string.rs of datafusion-spark 55.2.0 (Apache-2.0; see NOTICE): one turn of the loop of Formatter::format.
ghost use Rattle.std.specs.Prelude.{◌≡◌, ◌^◌, ◌<◌, length};
ghost use Rattle.elements.specs.Sizes.{Sized};
ghost use Rattle.elements.specs.PieceTexts.{shown_piece};
ghost use Rattle.elements.specs.Ready.{Ready, SourceIn, unpadded};

use crate::Size;
use parsing::Piece;
use rows::entries::Entry;

// Where an unpadded text lies: in the format, or in the row, where an entry of kind 7 names one.
#[derive(Clone, Copy)]
pub enum Source {
    Format {
        start: usize,
        len: usize,
    },
    Row {
        entry: Entry,
        precision: Option<u32>,
    },
}

// The unpadded text that lies there: 01's form, "a function over two lent slices returns the part".
#[tactic(auto, using(fields::proofs::Cuts::cut_shorter, std::proofs::lemmas::Grind::common_steps), unfolding(crate::specs::Ready::unpadded))]
pub(crate) fn unpadded_text<'a>(fmt: &'a [u8], row: &'a [u8], source: Source) -> &'a [u8]
    requires { SourceIn fmt.now row.now source }
    ensures { (result.now ≡ unpadded fmt.now row.now source) × (length result.now < 2 ^ 32) }
{
    match source {
        Source::Format { start, len } => &fmt[start..start + len],
        Source::Row { entry, precision } => {
            fields::strings::cut(precision, rows::named_text(row, entry))
        }
    }
}

// Writes a piece's text where there is room for it; else writes nothing. Returns its length either way, or what stops it.
#[tactic(auto, using(crate::proofs::Shown::sized_text), unfolding(crate::specs::Ready::unpadded, crate::specs::PieceTexts::shown_piece))]
pub fn put_piece(out: &mut [u8], fmt: &[u8], row: &[u8], piece: Piece) -> Size
    requires { Ready fmt.now row.now piece }
    ensures { Sized out.old (shown_piece fmt.now row.now piece) result out.new }
{
    match piece {
        Piece::Fixed { start, len } => {
            let source = Source::Format { start, len };
            Ok(writing::put_text(out, unpadded_text(fmt, row, source)) as u64)
        }
        Piece::Byte(b) => Ok(writing::put_byte(out, b) as u64),
        Piece::Element(e) => crate::put_element(out, fmt, row, e),
    }
}
