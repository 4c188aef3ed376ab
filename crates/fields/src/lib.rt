// A text in a field of the element's width: a text or a word, and an integer's digits. Answers the length, and writes where there is room.
// Ported from format_string.rs of datafusion-spark 55.2.0 (Apache-2.0; see NOTICE): format_string, and the digits of format_integer under %s.
#![tactic(auto)]

pub mod strings;

ghost use Rattle.std.specs.Prelude.{◌≡◌, ◌^◌, ◌≤◌, ◌<◌, length};
ghost use Rattle.writing.specs.Writers.{Wrote, Put};
ghost use Rattle.numerals.specs.Integers.{integer_of};
ghost use Rattle.numerals.specs.Digits.{decimal};
ghost use Rattle.fields.specs.Texts.{side, padded_text, format_string, with_minus, signed_text};

use frames::{Adjust, Mark, Prefix};
use specifiers::Element;
use specifiers::flags::Flags;

// Where spaces stand: behind with `-`, else in front.
fn side_of(flags: Flags) -> Adjust
    ensures { result ≡ side flags }
{
    if flags.left {
        Adjust::Left
    } else {
        Adjust::Right
    }
}

// A text in capitals or not, padded to the element's width.
#[tactic(auto, using(crate::proofs::Cased::lengths))]
pub fn put_padded(out: &mut [u8], e: Element, mark: Mark, text: &[u8]) -> u64
    requires { length text.now < 2 ^ 32 }
    ensures { Put out.old (padded_text e mark text.now) result out.new × (result < 2 ^ 42) }
{
    frames::layout::put_framed(
        out,
        specifiers::params::width_of(e.width),
        side_of(e.flags),
        mark,
        Prefix::NoPrefix,
        text.len() as u64,
        |place| strings::write_cased(place, text, e.upper),
    )
}

// A text, cut to the precision, in capitals or not, padded to the width.
#[tactic(auto, using(crate::proofs::Cuts::cut_shorter))]
pub fn format_string(out: &mut [u8], e: Element, text: &[u8]) -> u64
    requires { length text.now < 2 ^ 32 }
    ensures { Put out.old (format_string e text.now) result out.new × (result < 2 ^ 42) }
{
    put_padded(out, e, Mark::NoMark, strings::cut(e.precision, text))
}

// Writes an integer's digits as text. Answers the length.
fn write_signed_text(out: &mut [u8], negative: bool, magnitude: u64) -> usize
    requires { 21 ≤ length out.old }
    ensures { Wrote out.old (with_minus negative (decimal magnitude)) result out.new × (result ≤ 21) }
{
    if negative {
        out[0] = b'-';
        1 + numerals::write_decimal(&mut out[1..], magnitude)
    } else {
        numerals::write_decimal(out, magnitude)
    }
}

// %s of an integer
pub fn format_signed_text(out: &mut [u8], e: Element, signed: bool, value: u64) -> u64
    ensures { Put out.old (format_string e (signed_text (integer_of signed value))) result out.new × (result < 2 ^ 42) }
{
    let mut buffer = [0u8; 21];
    let n = numerals::integers::integer_of(signed, value);
    let len = write_signed_text(&mut buffer, n.negative, n.magnitude);
    format_string(out, e, &buffer[..len])
}
