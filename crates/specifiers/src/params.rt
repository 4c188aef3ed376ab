// The numbers that a format writes: a width, a precision or an argument index.
// Ported from format_string.rs of datafusion-spark 55.2.0 (Apache-2.0; see NOTICE): take_numeric_param.
ghost use Rattle.std.specs.Prelude.{◌≡◌, ◌+◌, length, drop};
ghost use Rattle.specifiers.specs.Params.{begins_param, leading_digits, number_at, param_at, width_of};

use refusals::{Parsed, Refusal};

// Whether a byte begins a parameter: a digit, and 0 only where zero is set.
fn begins_param(b: u8, zero: bool) -> bool
    ensures { result ≡ begins_param zero b }
{
    b.is_ascii_digit() && (zero || b != b'0')
}

// The number of the digits of s from the place at on.
pub fn take_number(s: &[u8], at: usize) -> Parsed<u32>
    ensures { result ≡ number_at s.now at }
{
    let mut value: u32 = 0;
    for i in at..s.len() {
        if !s[i].is_ascii_digit() {
            return Ok((value, i));
        }
        let digit = u32::from(s[i] - b'0');
        if (refusals::LARGEST_NUMBER - digit) / 10 < value {
            return Err(Refusal::LargeNumber);
        }
        value = value * 10 + digit;
    }
    Ok((value, at.max(s.len())))
}

// The width or precision that stands in s from the place at on, None where it is absent; a first digit 0 counts only where zero is set. Nothing is read past
// its digits.
#[tactic(auto, unfolding(crate::specs::Params::param_at))]
pub(crate) fn take_numeric_param(s: &[u8], at: usize, zero: bool) -> Parsed<Option<u32>>
    ensures { result ≡ param_at zero s.now at }
{
    if s.get(at).is_some_and(|&b| begins_param(b, zero)) {
        let (value, next) = take_number(s, at)?;
        return Ok((Some(value), next));
    }
    Ok((None, at))
}

// The place behind the digits that stand in s from the place at on. A chain of skip, take_while and count costs a third more for `%1$d`.
pub fn digits_end(s: &[u8], at: usize) -> usize
    ensures { result ≡ at + length (leading_digits (drop at s.now)) }
{
    for i in at..s.len() {
        if !s[i].is_ascii_digit() {
            return i;
        }
    }
    at.max(s.len())
}

pub fn width_of(width: Option<u32>) -> u32
    ensures { result ≡ width_of width }
{
    width.unwrap_or(0)
}
