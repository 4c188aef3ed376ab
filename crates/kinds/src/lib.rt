// The kinds of value, which letter fits which kind, and how a letter prints a kind.
// Ported from format_string.rs of datafusion-spark 55.2.0 (Apache-2.0; see NOTICE): ConversionType::validate.
#![tactic(auto)]

pub mod letters;

ghost use Rattle.std.specs.Prelude.{◌≡◌};
ghost use Rattle.kinds.specs.Kinds.{signed_kind, kind_of, kind_in, is_null, all_known, fit_of, fit_in};

use letters::{ConversionType, TimeFormat};
use numerals::Radix;

// An integer kind: its width in bits, and whether its values have a sign. The width is a number, no name, since values are shifted and masked by it.
#[derive(Clone, Copy, PartialEq, Eq)]
pub struct IntegerKind {
    pub width: u32,
    pub signed: bool,
}

// A kind of value: an integer, a binary64 float, a Boolean, a text, a timestamp.
#[derive(Clone, Copy, PartialEq, Eq)]
pub enum Kind {
    Integer(IntegerKind),
    Float64,
    Boolean,
    Text,
    Timestamp,
}

// How an integer is printed: as a numeral, as the character that it numbers, or by its decimal digits as text.
#[derive(Clone, Copy, PartialEq, Eq)]
pub enum IntegerForm {
    Numeral(Radix),
    Scalar,
    Digits,
}

// How a value is printed.
#[derive(Clone, Copy, PartialEq, Eq)]
pub enum Form {
    Integer {
        form: IntegerForm,
        kind: IntegerKind,
    },
    HexFloat,
    Boolean,
    Text,
    Time(TimeFormat),
    // Fits, and is refused when it is printed: 15, where a letter that does not fit is 12.
    NotPrinted,
}

// What a kind byte has added where the value is null.
const NULL_MARK: u8 = 128;

fn signed_kind(width: u32) -> Kind
    ensures { result ≡ signed_kind width }
{
    Kind::Integer(IntegerKind {
        width,
        signed: true,
    })
}

// The kind that a byte names.
#[tactic(auto, unfolding(crate::specs::Kinds::kind_of))]
fn kind_of(b: u8) -> Option<Kind>
    ensures { result ≡ kind_of b }
{
    match b {
        1 => Some(signed_kind(8)),
        2 => Some(signed_kind(16)),
        3 => Some(signed_kind(32)),
        4 => Some(signed_kind(64)),
        5 => Some(Kind::Float64),
        6 => Some(Kind::Boolean),
        7 => Some(Kind::Text),
        8 => Some(Kind::Timestamp),
        _ => None,
    }
}

// The kind of a row's kind byte, with a null mark or without.
pub fn kind_in(byte: u8) -> Option<Kind>
    ensures { result ≡ kind_in byte }
{
    kind_of(byte % NULL_MARK)
}

// Whether a row's kind byte has a null mark.
pub fn is_null(byte: u8) -> bool
    ensures { result ≡ is_null byte }
{
    NULL_MARK <= byte
}

// Whether every byte names a kind.
#[tactic(auto, unfolding(crate::specs::Kinds::all_known))]
pub fn all_known(kinds: &[u8]) -> bool
    ensures { result ≡ all_known kinds.now }
{
    kinds.iter().all(|&b| kind_of(b).is_some())
}

// How a conversion prints a kind that it fits.
fn fit_of(conversion: ConversionType, kind: Kind) -> Option<Form>
    ensures { result ≡ fit_of conversion kind }
{
    match (conversion, kind) {
        (ConversionType::Integer(radix), Kind::Integer(kind)) => Some(Form::Integer {
            form: IntegerForm::Numeral(radix),
            kind,
        }),
        (ConversionType::Char, Kind::Integer(kind)) => Some(Form::Integer {
            form: IntegerForm::Scalar,
            kind,
        }),
        (ConversionType::String, Kind::Integer(kind)) => Some(Form::Integer {
            form: IntegerForm::Digits,
            kind,
        }),
        (ConversionType::String, Kind::Text) => Some(Form::Text),
        (ConversionType::HexFloat, Kind::Float64) => Some(Form::HexFloat),
        (ConversionType::Boolean, Kind::Boolean) => Some(Form::Boolean),
        (ConversionType::Time(component), Kind::Timestamp) => Some(Form::Time(component)),
        (ConversionType::HexHash | ConversionType::String, _)
        | (ConversionType::HexFloat | ConversionType::DecimalFloat, Kind::Integer(_))
        | (ConversionType::DecimalFloat, Kind::Float64) => Some(Form::NotPrinted),
        _ => None,
    }
}

// Whether a conversion fits the kind of a row's kind byte, and how it is printed then. It takes any byte: one that names no kind fits nothing.
pub fn validate(conversion: ConversionType, byte: u8) -> Option<Form>
    ensures { result ≡ fit_in conversion (kind_in byte) }
{
    fit_of(conversion, kind_in(byte)?)
}
