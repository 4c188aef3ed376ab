// The hexadecimal text of a binary64 value: the digits of %a without mark, prefix and padding.
// Ported in part from format_string.rs of datafusion-spark 55.2.0 (Apache-2.0; see NOTICE): the text of format_hex_float.
#![tactic(auto)]

ghost use Rattle.std.specs.Prelude.{◌≡◌, Bool, ◌^◌, ◌≤◌, ◌<◌, length};
ghost use Rattle.writing.specs.Laid.{laid};
ghost use Rattle.hexfloats.specs.Texts.{leading_letter, exponent_letter, exponent_text, hex_float_text};

use binary64::HexFloat;
use numerals::{Radix, decimal_len, write_digits};
use writing::{write_fill, write_text};

// The letter before the exponent. One of two, as the digit before the point and hex_prefix of numbers are: one function for these is longer than each.
fn exponent_letter(upper: bool) -> u8
    ensures { result ≡ exponent_letter upper }
{
    if upper { b'P' } else { b'p' }
}

// The length of the exponent's text, in small letters and capitals alike.
#[tactic(auto, using(crate::proofs::Texts::lengths))]
fn exponent_len(exponent: u32, bias: u32) -> usize
    ensures text { (u : Bool) → result ≡ length (exponent_text u exponent bias) }
    ensures bounded { result ≤ 12 }
{
    let places = decimal_len(u64::from(exponent.abs_diff(bias)));
    if exponent < bias {
        2 + places
    } else {
        1 + places
    }
}

// Writes p or P and the exponent in decimal. Answers the length.
#[tactic(auto, using(crate::proofs::Texts::lengths))]
fn write_exponent(out: &mut [u8], exponent: u32, bias: u32, upper: bool) -> usize
    requires { length (exponent_text upper exponent bias) ≤ length out.old }
    ensures { (result ≡ length (exponent_text upper exponent bias)) × (out.new ≡ laid out.old (exponent_text upper exponent bias)) }
{
    let n = u64::from(exponent.abs_diff(bias));
    let a = if exponent < bias {
        write_text(out, &[exponent_letter(upper), b'-'])
    } else {
        write_text(out, &[exponent_letter(upper)])
    };
    a + write_digits(&mut out[a..], n, Radix::Decimal, decimal_len(n), false)
}

// The length of the text, in small letters and capitals alike; its time does not grow with the digits or the zeros.
#[tactic(auto, using(crate::proofs::Texts::lengths))]
pub fn hex_float_len(h: HexFloat) -> u64
    ensures text { (u : Bool) → result ≡ length (hex_float_text u h) }
    ensures bounded { result < 2 ^ 34 }
{
    let tail = exponent_len(h.exponent, h.bias) as u64;
    2 + u64::from(h.digits) + u64::from(h.zeros) + tail
}

// The digit before the point.
fn leading_letter(leading: bool) -> u8
    ensures { result ≡ leading_letter leading }
{
    if leading { b'1' } else { b'0' }
}

// Writes the text. Answers its length.
#[tactic(auto, using(crate::proofs::Texts::lengths))]
pub fn write_hex_float(out: &mut [u8], h: HexFloat, upper: bool) -> usize
    requires { length (hex_float_text upper h) ≤ length out.old }
    ensures { (result ≡ length (hex_float_text upper h)) × (out.new ≡ laid out.old (hex_float_text upper h)) }
{
    let a = write_text(out, &[leading_letter(h.leading), b'.']);
    let digits = h.digits as usize;
    let b = a + write_digits(&mut out[a..], h.fraction, Radix::Hexadecimal, digits, upper);
    let c = b + write_fill(&mut out[b..], h.zeros as usize, b'0');
    c + write_exponent(&mut out[c..], h.exponent, h.bias, upper)
}
