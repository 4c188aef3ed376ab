// One entry of a row: whether a value is one of its kind, and may be null.
ghost use Rattle.std.specs.Prelude.{◌≡◌, ◌≤◌, true, false};
ghost use Rattle.rows.specs.Entry.{entry_of, within, holds, can_be_null, is_entry};
ghost use Rattle.rows.specs.Widths.{HasWidth};

use kinds::{IntegerKind, Kind};

// What a row has for one of its arguments; its byte may name no kind. A null one keeps its value, which is looked at: 14 where it is not 0.
#[derive(Clone, Copy)]
pub struct Entry {
    pub kind: Option<Kind>,
    pub null: bool,
    pub value: u64,
}

// The entry of a kind byte and a value: of two things, so no From.
pub(crate) fn entry_of(byte: u8, value: u64) -> Entry
    ensures { result ≡ entry_of byte value }
{
    Entry {
        kind: kinds::kind_in(byte),
        null: kinds::is_null(byte),
        value,
    }
}

// Whether a value is an integer of this kind: sign-extended to 64 bits, or within its width.
fn is_within(kind: IntegerKind, value: u64) -> bool
    requires { HasWidth (Some (Kind.Integer kind)) }
    ensures { result ≡ within kind value }
{
    if kind.signed {
        let half = 1u64 << (kind.width - 1);
        value < half || half.wrapping_neg() <= value
    } else {
        kind.width == 64 || value < 1 << kind.width
    }
}

// Whether a value names a part of the text area that is well-formed UTF-8.
fn is_part(text: &[u8], value: u64) -> bool
    ensures { result ≡ holds (Some Kind.Text) text.now value }
{
    let offset = (value % 4294967296) as usize;
    let len = (value / 4294967296) as usize;
    offset + len <= text.len() && utf8::is_well_formed(&text[offset..offset + len])
}

// Whether a value is one of its kind; text is the row's text area.
fn is_value(kind: Option<Kind>, text: &[u8], value: u64) -> bool
    requires { HasWidth kind }
    ensures { result ≡ holds kind text.now value }
{
    match kind {
        Some(Kind::Integer(k)) => is_within(k, value),
        Some(Kind::Boolean) => value <= 1,
        Some(Kind::Text) => is_part(text, value),
        Some(Kind::Float64 | Kind::Timestamp) => true,
        None => false,
    }
}

fn can_be_null(kind: Option<Kind>) -> bool
    ensures { result ≡ can_be_null kind }
{
    matches!(kind, Some(Kind::Integer(_) | Kind::Boolean))
}

// Whether an entry may stand in a row with this text area.
#[tactic(auto, unfolding(crate::specs::Entry::is_entry))]
pub(crate) fn is_entry(e: Entry, text: &[u8]) -> bool
    requires { HasWidth e.kind }
    ensures { result ≡ is_entry text.now e }
{
    if e.null {
        can_be_null(e.kind) && e.value == 0
    } else {
        is_value(e.kind, text, e.value)
    }
}
