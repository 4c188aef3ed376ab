// What stands behind an element's index: flags, width, precision and letter.
// Ported from format_string.rs of datafusion-spark 55.2.0 (Apache-2.0; see NOTICE): take_conversion_specifier.
// Each step takes the format and a place, and answers its value and the place behind. A reader of both is no plainer: each contract would say the two of it.
// Bytes are tested by place and length. `get`, patterns, a default and one reader of a letter in either case were measured together, none alone: with them a
// row of fifteen `%1$d` takes 3.5 % more instructions, a row of `%c` 1.7 %, of `%d` 1.1 %.
#![tactic(auto)]

pub mod flags;
pub mod params;

ghost use Rattle.std.specs.Prelude.{◌≡◌, ◌<◌, length, drop};
ghost use Rattle.kinds.specs.Kinds.{kind_in};
ghost use Rattle.specifiers.specs.Specifier.{begins_with, precision_at, time_letter_at, letter_at, parts_at, specifier_at};
ghost use Rattle.specifiers.specs.Steps.{begins_letter};

use flags::Flags;
use kinds::Form;
use kinds::letters::{ConversionType, capital_letter, small_letter, time_of};
use refusals::{Parsed, Refusal};

// What stands between an element's index and its letter.
#[derive(Clone, Copy)]
pub struct Parts {
    pub flags: Flags,
    pub width: Option<u32>,
    pub precision: Option<u32>,
}

// An element: the argument that it takes, its flags, width, precision and letter, a capital where upper is set, and the form in which the letter prints the
// argument's kind. Its parts stand beside the letter, as in the original, so that each crate above reads `e.width`, not `e.parts.width`.
// Writers take it beside the output and the value: these come from other places, and a struct of the three would last for one call.
#[derive(Clone, Copy)]
pub struct Element {
    pub argument: usize,
    pub flags: Flags,
    pub width: Option<u32>,
    pub precision: Option<u32>,
    pub conversion: ConversionType,
    pub upper: bool,
    pub form: Form,
}

// `.` and digits, or no precision.
#[tactic(auto, unfolding(crate::specs::Specifier::precision_at))]
fn take_precision(fmt: &[u8], at: usize) -> Parsed<Option<u32>>
    ensures { result ≡ precision_at fmt.now at }
{
    if is_byte(fmt, at, b'.') {
        params::take_numeric_param(fmt, at + 1, true)
    } else {
        Ok((None, at))
    }
}

// Whether the byte at a place is b.
pub fn is_byte(fmt: &[u8], at: usize, b: u8) -> bool
    ensures { result ≡ begins_with b (drop at fmt.now) }
{
    at < fmt.len() && fmt[at] == b
}

// The letter behind t or T, at the place at + 1: upper for T.
#[tactic(auto, using(writing::proofs::Bytes::byte_at, writing::proofs::Bytes::no_byte), unfolding(crate::specs::Specifier::time_letter_at))]
fn take_time_letter(fmt: &[u8], at: usize, upper: bool) -> Parsed<(ConversionType, bool)>
    requires { at < length fmt.now }
    ensures { result ≡ time_letter_at fmt.now at upper }
{
    let second = at + 1;
    if fmt.len() <= second {
        return Err(Refusal::NoTimeLetter);
    }
    let Some(component) = time_of(fmt[second]) else {
        return Err(Refusal::NoTimeLetter);
    };
    Ok(((ConversionType::Time(component), upper), at + 2))
}

// The letter, or t or T with its own, and whether it is a capital.
fn take_letter(fmt: &[u8], at: usize) -> Parsed<(ConversionType, bool)>
    ensures { result ≡ letter_at fmt.now at }
{
    if fmt.len() <= at {
        return Err(Refusal::NoLetter);
    }
    let b = fmt[at];
    if b == b't' {
        return take_time_letter(fmt, at, false);
    }
    if b == b'T' {
        return take_time_letter(fmt, at, true);
    }
    if let Some(conversion) = small_letter(b) {
        return Ok(((conversion, false), at + 1));
    }
    let Some(conversion) = capital_letter(b) else {
        return Err(Refusal::NoLetter);
    };
    Ok(((conversion, true), at + 1))
}

// Whether a byte from A on stands at a place: no flag, digit or `.` does.
fn begins_letter(fmt: &[u8], at: usize) -> bool
    ensures { result ≡ begins_letter (drop at fmt.now) }
{
    at < fmt.len() && b'A' <= fmt[at]
}

// Flags, width and precision. Where the letter follows at once, there is none of them to read.
#[tactic(auto, using(crate::proofs::AtLetter::no_parts), unfolding(crate::specs::Specifier::parts_at))]
fn take_parts(fmt: &[u8], at: usize) -> Parsed<Parts>
    ensures { result ≡ parts_at fmt.now at }
{
    if begins_letter(fmt, at) {
        let none = Parts {
            flags: flags::no_flags(),
            width: None,
            precision: None,
        };
        return Ok((none, at));
    }
    let (flags, at_width) = flags::take_flags(fmt, at)?;
    let (width, at_point) = params::take_numeric_param(fmt, at_width, false)?;
    let (precision, at_letter) = take_precision(fmt, at_point)?;
    let parts = Parts {
        flags,
        width,
        precision,
    };
    Ok((parts, at_letter))
}

// An element behind its index: flags, width, precision, letter, and whether it fits the kind of this byte, which may name none.
#[tactic(auto, unfolding(crate::specs::Specifier::specifier_at))]
pub fn take_conversion_specifier(
    fmt: &[u8],
    at: usize,
    argument: usize,
    byte: u8,
) -> Parsed<Element>
    ensures { result ≡ specifier_at fmt.now at argument (kind_in byte) }
{
    let (parts, at_letter) = take_parts(fmt, at)?;
    let ((conversion, upper), end) = take_letter(fmt, at_letter)?;
    let Some(form) = kinds::validate(conversion, byte) else {
        return Err(Refusal::UnfitLetter);
    };
    let element = Element {
        argument,
        flags: parts.flags,
        width: parts.width,
        precision: parts.precision,
        conversion,
        upper,
        form,
    };
    Ok((element, end))
}
