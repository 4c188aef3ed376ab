// The text of a number under an element, with mark, prefix and padding: an integer as a numeral, and a finite float. A writer writes where there is room.
// Ported from format_string.rs of datafusion-spark 55.2.0 (Apache-2.0; see NOTICE): format_signed and format_unsigned (here the numeral of an integer, and its
// writer put_numeral), and the finite values of format_hex_float.
#![tactic(auto)]

ghost use Rattle.std.specs.Prelude.{◌≡◌, ◌^◌, ◌≤◌, ◌<◌, length};
ghost use Rattle.numerals.specs.Integers.{integer_of};
ghost use Rattle.writing.specs.Writers.{Wrote, Put};
ghost use Rattle.numbers.specs.Numbers.{fill, padded_number, sign_mark, integer_mark, if_alternate, hex_prefix, numeral_text, float_mark, finite_text};
ghost use Rattle.numbers.specs.Numerals.{digits_text, decimal_numeral, unsigned_numeral, numeral_of};

use frames::{Adjust, Mark, Prefix};
use kinds::IntegerKind;
use numerals::Radix;
use specifiers::Element;
use specifiers::flags::Flags;

// An integer as digits in a base, with its mark and prefix; with commas where grouped is set.
#[derive(Clone, Copy)]
pub struct Numeral {
    pub mark: Mark,
    pub prefix: Prefix,
    pub value: u64,
    pub radix: Radix,
    pub upper: bool,
    pub grouped: bool,
}

// Where a number's padding stands: zeros with `0`. No method of Flags, as little as side_of in fields: specifiers has flags, frames has Adjust.
fn fill_of(flags: Flags) -> Adjust
    ensures { result ≡ fill flags }
{
    if flags.left {
        Adjust::Left
    } else if flags.zero {
        Adjust::Zeros
    } else {
        Adjust::Right
    }
}

fn sign_mark(flags: Flags) -> Mark
    ensures { result ≡ sign_mark flags }
{
    if flags.plus {
        Mark::Plus
    } else if flags.space {
        Mark::Space
    } else {
        Mark::NoMark
    }
}

pub fn float_mark(flags: Flags, negative: bool) -> Mark
    ensures { result ≡ float_mark flags negative }
{
    if negative {
        Mark::Minus
    } else {
        sign_mark(flags)
    }
}

fn integer_mark(flags: Flags, negative: bool) -> Mark
    ensures { result ≡ integer_mark flags negative }
{
    if negative && flags.parentheses {
        Mark::Brackets
    } else {
        float_mark(flags, negative)
    }
}

// What `#` puts in front.
fn if_alternate(flags: Flags, prefix: Prefix) -> Prefix
    ensures { result ≡ if_alternate flags prefix }
{
    if flags.alternate {
        prefix
    } else {
        Prefix::NoPrefix
    }
}

// The prefix of hexadecimal digits.
fn hex_prefix(upper: bool) -> Prefix
    ensures { result ≡ hex_prefix upper }
{
    if upper {
        Prefix::HexUpper
    } else {
        Prefix::HexLower
    }
}

// How many bytes a numeral's digits and commas take.
#[tactic(auto, using(crate::proofs::Numerals::lengths))]
fn numeral_len(n: Numeral) -> usize
    ensures { (result ≡ length (digits_text n)) × (result < 2 ^ 32) }
{
    if n.grouped {
        numerals::grouping::grouped_len(n.value)
    } else {
        numerals::digits_len(n.value, n.radix)
    }
}

// Writes them. Answers len, which is how many they are.
#[tactic(auto, using(crate::proofs::Numerals::lengths, numerals::proofs::Digits::numeral_in))]
fn write_numeral(out: &mut [u8], n: Numeral, len: usize) -> usize
    requires { (len ≡ length (digits_text n)) × (len ≤ length out.old) }
    ensures { Wrote out.old (digits_text n) result out.new }
{
    if n.grouped {
        numerals::grouping::write_grouped(out, n.value, len)
    } else {
        numerals::write_digits(out, n.value, n.radix, len, n.upper)
    }
}

// A numeral, padded to the element's width.
fn put_numeral(out: &mut [u8], e: Element, n: Numeral) -> u64
    ensures { Put out.old (padded_number e n.mark n.prefix (digits_text n)) result out.new × (result < 2 ^ 42) }
{
    let len = numeral_len(n);
    frames::layout::put_framed(
        out,
        specifiers::params::width_of(e.width),
        fill_of(e.flags),
        n.mark,
        n.prefix,
        len as u64,
        |place| write_numeral(place, n, len),
    )
}

// %d
fn decimal_numeral(flags: Flags, signed: bool, value: u64) -> Numeral
    ensures { result ≡ decimal_numeral flags (integer_of signed value) }
{
    let n = numerals::integers::integer_of(signed, value);
    Numeral {
        mark: integer_mark(flags, n.negative),
        prefix: Prefix::NoPrefix,
        value: n.magnitude,
        radix: Radix::Decimal,
        upper: false,
        grouped: flags.grouping,
    }
}

// %x and %o of the bits of an integer.
fn unsigned_numeral(prefix: Prefix, radix: Radix, upper: bool, bits: u64) -> Numeral
    ensures { result ≡ unsigned_numeral prefix radix upper bits }
{
    Numeral {
        mark: Mark::NoMark,
        prefix,
        value: bits,
        radix,
        upper,
        grouped: false,
    }
}

// The numeral of an integer of this kind.
fn numeral_of(e: Element, radix: Radix, kind: IntegerKind, value: u64) -> Numeral
    ensures { result ≡ numeral_of e radix kind value }
{
    match radix {
        Radix::Decimal => decimal_numeral(e.flags, kind.signed, value),
        Radix::Octal => {
            let bits = numerals::integers::low_bits(value, kind.width);
            let prefix = if_alternate(e.flags, Prefix::Octal);
            unsigned_numeral(prefix, Radix::Octal, false, bits)
        }
        Radix::Hexadecimal => {
            let bits = numerals::integers::low_bits(value, kind.width);
            let prefix = if_alternate(e.flags, hex_prefix(e.upper));
            unsigned_numeral(prefix, Radix::Hexadecimal, e.upper, bits)
        }
    }
}

// An integer of this kind as a numeral: %d, %x and %o.
pub fn format_numeral(
    out: &mut [u8],
    e: Element,
    radix: Radix,
    kind: IntegerKind,
    value: u64,
) -> u64
    ensures { Put out.old (numeral_text e radix kind value) result out.new × (result < 2 ^ 42) }
{
    put_numeral(out, e, numeral_of(e, radix, kind, value))
}

// A finite float.
pub fn format_finite(out: &mut [u8], e: Element, bits: u64) -> u64
    ensures { Put out.old (finite_text e bits) result out.new × (result < 2 ^ 42) }
{
    let parts = binary64::to_parts(bits);
    let float = binary64::hex_float(bits, e.precision);
    frames::layout::put_framed(
        out,
        specifiers::params::width_of(e.width),
        fill_of(e.flags),
        float_mark(e.flags, parts.negative),
        hex_prefix(e.upper),
        hexfloats::hex_float_len(float),
        |place| hexfloats::write_hex_float(place, float, e.upper),
    )
}
