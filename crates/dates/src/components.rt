// The components of a date and their parts: as `format_time_component` prints them.
// Ported from format_string.rs of datafusion-spark 55.2.0 (Apache-2.0; see NOTICE): what format_time_component prints for each component.
ghost use Rattle.std.specs.Prelude.{◌≡◌, ◌≤◌, length};
ghost use Rattle.numerals.specs.Integers.{int_of};
ghost use Rattle.dates.specs.Names.{month_names, weekday_names, name_of};
ghost use Rattle.dates.specs.Components.{clock12, half, short, sign_text, name_text, symbol_text, pattern_of, is_early_fraction};
ghost use Rattle.dates.specs.Steps.{part_text, Fitting, room_of, room};

use calendar::Moment;
use kinds::letters::TimeFormat;

// A part of a component's text: a number at so many places at least, a word, a byte.
#[derive(Clone, Copy)]
pub enum TimePart {
    Number(usize, u64),
    Word(&'static [u8]),
    Byte(u8),
}

// A component's letters.
pub(crate) fn pattern_of(component: TimeFormat) -> &'static [u8]
    ensures { result.now ≡ pattern_of component }
{
    match component {
        TimeFormat::HUpper => b"H",
        TimeFormat::IUpper => b"I",
        TimeFormat::KLower => b"k",
        TimeFormat::LLower => b"l",
        TimeFormat::MUpper => b"M",
        TimeFormat::SUpper => b"S",
        TimeFormat::LUpper => b"L",
        TimeFormat::NUpper => b"N",
        TimeFormat::PLower => b"p",
        TimeFormat::ZLower => b"z",
        TimeFormat::ZUpper => b"Z",
        TimeFormat::SLower => b"~s",
        TimeFormat::QUpper => b"~Q",
        TimeFormat::BUpper => b"B",
        TimeFormat::BLower => b"b",
        TimeFormat::AUpper => b"A",
        TimeFormat::ALower => b"a",
        TimeFormat::CUpper => b"C",
        TimeFormat::YUpper => b"Y",
        TimeFormat::YLower => b"y",
        TimeFormat::JLower => b"j",
        TimeFormat::MLower => b"m",
        TimeFormat::DLower => b"d",
        TimeFormat::ELower => b"e",
        TimeFormat::RUpper => b"H:M",
        TimeFormat::TUpper => b"H:M:S",
        TimeFormat::RLower => b"I:M:S P",
        TimeFormat::DUpper => b"m/d/y",
        TimeFormat::FUpper => b"Y-m-d",
        TimeFormat::CLower => b"a b d H:M:S Z Y",
    }
}

// A month's name; of another number none, as in the definition. No array of names: it is as long, and months begin at 1, weekdays at 0.
#[tactic(auto, unfolding(crate::specs::Names::name_of))]
fn month_name(month: u64) -> &'static [u8]
    ensures { (result.now ≡ name_of month_names month) × (length result.now ≤ 20) }
{
    match month {
        1 => b"January",
        2 => b"February",
        3 => b"March",
        4 => b"April",
        5 => b"May",
        6 => b"June",
        7 => b"July",
        8 => b"August",
        9 => b"September",
        10 => b"October",
        11 => b"November",
        12 => b"December",
        _ => b"",
    }
}

// A weekday's name, in the same way.
#[tactic(auto, unfolding(crate::specs::Names::name_of))]
fn weekday_name(weekday: u64) -> &'static [u8]
    ensures { (result.now ≡ name_of weekday_names weekday) × (length result.now ≤ 20) }
{
    match weekday {
        0 => b"Monday",
        1 => b"Tuesday",
        2 => b"Wednesday",
        3 => b"Thursday",
        4 => b"Friday",
        5 => b"Saturday",
        6 => b"Sunday",
        _ => b"",
    }
}

// The hour of the 12-hour clock.
#[tactic(auto, unfolding(crate::specs::Components::clock12))]
fn clock12(hour: u64) -> u64
    ensures { result ≡ clock12 hour }
{
    match hour % 12 {
        0 => 12,
        h => h,
    }
}

// The word for an hour, of the morning or of the afternoon.
#[tactic(auto, unfolding(crate::specs::Components::half))]
fn half(hour: u64, morning: &'static [u8], afternoon: &'static [u8]) -> &'static [u8]
    requires { (length morning.now ≤ 20) × (length afternoon.now ≤ 20) }
    ensures { (result.now ≡ half morning.now afternoon.now hour) × (length result.now ≤ 20) }
{
    if hour < 12 { morning } else { afternoon }
}

// The first three letters of a name.
fn short(name: &'static [u8]) -> &'static [u8]
    ensures { (result.now ≡ short name.now) × (length result.now ≤ 20) }
{
    &name[..name.len().min(3)]
}

// The sign of a timestamp.
#[tactic(auto, unfolding(crate::specs::Components::sign_text))]
fn sign(timestamp: u64) -> &'static [u8]
    ensures { (result.now ≡ sign_text (int_of 64 timestamp)) × (length result.now ≤ 20) }
{
    if numerals::integers::is_negative(timestamp) {
        b"-"
    } else {
        b""
    }
}

// What a letter that is no number's prints of a timestamp, whose moment is m: a name, a word, or the byte itself.
#[tactic(auto, unfolding(crate::specs::Components::name_text, writing::specs::Text::has))]
fn name_part(letter: u8, m: Moment, timestamp: u64) -> TimePart
    ensures { (part_text result ≡ name_text (int_of 64 timestamp) m letter) × (Fitting result × (room_of result ≤ room letter)) }
{
    match letter {
        b'p' => TimePart::Word(half(m.hour, b"am", b"pm")),
        b'P' => TimePart::Word(half(m.hour, b"AM", b"PM")),
        b'z' => TimePart::Word(b"+0000"),
        b'Z' => TimePart::Word(b"UTC"),
        b'~' => TimePart::Word(sign(timestamp)),
        b'B' => TimePart::Word(month_name(m.month)),
        b'b' => TimePart::Word(short(month_name(m.month))),
        b'A' => TimePart::Word(weekday_name(m.weekday)),
        b'a' => TimePart::Word(short(weekday_name(m.weekday))),
        _ => TimePart::Byte(letter),
    }
}

// What a letter prints of a timestamp, whose moment is m. Bytes name the parts, as in the definition: a component's
// letter where one has the part alone, `~` for the sign.
#[tactic(auto, unfolding(crate::specs::Components::symbol_text, writing::specs::Text::has))]
pub(crate) fn part_of(letter: u8, m: Moment, timestamp: u64) -> TimePart
    ensures { (part_text result ≡ symbol_text (int_of 64 timestamp) m letter) × (Fitting result × (room_of result ≤ room letter)) }
{
    let hour12 = clock12(m.hour);
    let magnitude = numerals::integers::magnitude(timestamp);
    match letter {
        b'H' => TimePart::Number(2, m.hour),
        b'I' => TimePart::Number(2, hour12),
        b'k' => TimePart::Number(1, m.hour),
        b'l' => TimePart::Number(1, hour12),
        b'M' => TimePart::Number(2, m.minute),
        b'S' => TimePart::Number(2, m.second),
        b'L' => TimePart::Number(3, m.nanos / 1000000),
        b'N' => TimePart::Number(9, m.nanos),
        b's' => TimePart::Number(1, magnitude / 1000000000),
        b'Q' => TimePart::Number(1, magnitude / 1000000),
        b'C' => TimePart::Number(2, m.year / 100),
        b'Y' => TimePart::Number(4, m.year),
        b'y' => TimePart::Number(2, m.year % 100),
        b'j' => TimePart::Number(3, m.ordinal),
        b'm' => TimePart::Number(2, m.month),
        b'd' => TimePart::Number(2, m.day),
        b'e' => TimePart::Number(1, m.day),
        _ => name_part(letter, m, timestamp),
    }
}

// Whether a timestamp lies before 1970 and is not a whole second.
#[tactic(auto, unfolding(crate::specs::Components::is_early_fraction))]
pub fn is_early_fraction(timestamp: u64) -> bool
    ensures { result ≡ is_early_fraction (int_of 64 timestamp) }
{
    numerals::integers::is_negative(timestamp)
        && numerals::integers::magnitude(timestamp) % 1000000000 != 0
}
