// The letters of a format.
// Ported from format_string.rs of datafusion-spark 55.2.0 (Apache-2.0; see NOTICE): ConversionType, TimeFormat with its
// try_from and the letters of take_conversion_specifier.
ghost use Rattle.std.specs.Prelude.{◌≡◌};
ghost use Rattle.kinds.specs.Letters.{time_of, small_of, capital_of};

use numerals::Radix;

// The component of a date that a letter behind t or T names.
#[derive(Clone, Copy, PartialEq, Eq)]
pub enum TimeFormat {
    HUpper,
    IUpper,
    KLower,
    LLower,
    MUpper,
    SUpper,
    LUpper,
    NUpper,
    PLower,
    ZLower,
    ZUpper,
    SLower,
    QUpper,
    BUpper,
    BLower,
    AUpper,
    ALower,
    CUpper,
    YUpper,
    YLower,
    JLower,
    MLower,
    DLower,
    ELower,
    RUpper,
    TUpper,
    RLower,
    DUpper,
    FUpper,
    CLower,
}

// What a letter prints; its capital prints the same in capitals. The original has a variant for each letter.
#[derive(Clone, Copy, PartialEq, Eq)]
pub enum ConversionType {
    Boolean,
    HexHash,
    String,
    Char,
    Integer(Radix),
    DecimalFloat,
    HexFloat,
    Time(TimeFormat),
}

// The component that a byte names.
#[tactic(auto, unfolding(crate::specs::Letters::time_of))]
pub fn time_of(b: u8) -> Option<TimeFormat>
    ensures { result ≡ time_of b }
{
    match b {
        b'H' => Some(TimeFormat::HUpper),
        b'I' => Some(TimeFormat::IUpper),
        b'k' => Some(TimeFormat::KLower),
        b'l' => Some(TimeFormat::LLower),
        b'M' => Some(TimeFormat::MUpper),
        b'S' => Some(TimeFormat::SUpper),
        b'L' => Some(TimeFormat::LUpper),
        b'N' => Some(TimeFormat::NUpper),
        b'p' => Some(TimeFormat::PLower),
        b'z' => Some(TimeFormat::ZLower),
        b'Z' => Some(TimeFormat::ZUpper),
        b's' => Some(TimeFormat::SLower),
        b'Q' => Some(TimeFormat::QUpper),
        b'B' => Some(TimeFormat::BUpper),
        b'b' | b'h' => Some(TimeFormat::BLower),
        b'A' => Some(TimeFormat::AUpper),
        b'a' => Some(TimeFormat::ALower),
        b'C' => Some(TimeFormat::CUpper),
        b'Y' => Some(TimeFormat::YUpper),
        b'y' => Some(TimeFormat::YLower),
        b'j' => Some(TimeFormat::JLower),
        b'm' => Some(TimeFormat::MLower),
        b'd' => Some(TimeFormat::DLower),
        b'e' => Some(TimeFormat::ELower),
        b'R' => Some(TimeFormat::RUpper),
        b'T' => Some(TimeFormat::TUpper),
        b'r' => Some(TimeFormat::RLower),
        b'D' => Some(TimeFormat::DUpper),
        b'F' => Some(TimeFormat::FUpper),
        b'c' => Some(TimeFormat::CLower),
        _ => None,
    }
}

// The conversion that a small letter names, but for t, which a second letter completes. Beside capital_letter: one function for both, which answers the case
// too, was one of the forms that took more instructions (specifiers).
#[tactic(auto, unfolding(crate::specs::Letters::small_of))]
pub fn small_letter(b: u8) -> Option<ConversionType>
    ensures { result ≡ small_of b }
{
    match b {
        b'b' => Some(ConversionType::Boolean),
        b'h' => Some(ConversionType::HexHash),
        b's' => Some(ConversionType::String),
        b'c' => Some(ConversionType::Char),
        b'd' => Some(ConversionType::Integer(Radix::Decimal)),
        b'o' => Some(ConversionType::Integer(Radix::Octal)),
        b'x' => Some(ConversionType::Integer(Radix::Hexadecimal)),
        b'e' | b'f' | b'g' => Some(ConversionType::DecimalFloat),
        b'a' => Some(ConversionType::HexFloat),
        _ => None,
    }
}

// The conversion that a capital names, but for T.
#[tactic(auto, unfolding(crate::specs::Letters::capital_of))]
pub fn capital_letter(b: u8) -> Option<ConversionType>
    ensures { result ≡ capital_of b }
{
    match b {
        b'B' => Some(ConversionType::Boolean),
        b'H' => Some(ConversionType::HexHash),
        b'S' => Some(ConversionType::String),
        b'C' => Some(ConversionType::Char),
        b'X' => Some(ConversionType::Integer(Radix::Hexadecimal)),
        b'E' | b'G' => Some(ConversionType::DecimalFloat),
        b'A' => Some(ConversionType::HexFloat),
        _ => None,
    }
}
