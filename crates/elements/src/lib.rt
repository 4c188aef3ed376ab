// The text of a row's value under an element: its length, and its writer, which writes where there is room.
// Ported from format_string.rs of datafusion-spark 55.2.0 (Apache-2.0; see NOTICE): format_integer, format_char, format_boolean,
// format_hex_float and format_time, but for the text of a number, which is `numbers`, a text in its field, which is `fields`, and a component
// of a date, which is `dates`.
#![tactic(auto)]

pub mod pieces;

ghost use Rattle.std.specs.Prelude.{◌^◌, ◌<◌, length};
ghost use Rattle.writing.specs.Writers.{Put};
ghost use Rattle.numerals.specs.Integers.{int_of, integer_of};
ghost use Rattle.binary64.specs.Fields.{category_of};
ghost use Rattle.rows.specs.Row.{entry_at};
ghost use Rattle.fields.specs.Texts.{format_string};
ghost use Rattle.elements.specs.Texts.{char_text, float_text, integer_text, time_text, boolean_word};
ghost use Rattle.elements.specs.Sizes.{Sized};
ghost use Rattle.elements.specs.PieceTexts.{shown_entry};
ghost use Rattle.elements.specs.Ready.{Suited};

use binary64::FpCategory;
use frames::Mark;
use kinds::letters::TimeFormat;
use kinds::{Form, IntegerForm, IntegerKind};
use pieces::Source;
use refusals::Refusal;
use specifiers::Element;

// The length of a text, or what stops it. What a writer leaves is said with it in a word of its contract, `Sized`.
pub type Size = Result<u64, Refusal>;

// %c
#[tactic(auto, using(crate::proofs::Characters::characters))]
fn format_char(out: &mut [u8], e: Element, signed: bool, value: u64) -> Size
    ensures { Sized out.old (char_text e (integer_of signed value)) result out.new }
{
    let n = numerals::integers::integer_of(signed, value);
    if n.negative || !utf8::scalars::is_scalar(n.magnitude) {
        return Err(Refusal::NoScalar);
    }
    let mut buffer = [0u8; 4];
    let len = utf8::scalars::write_scalar(&mut buffer, n.magnitude as u32);
    Ok(fields::put_padded(out, e, Mark::NoMark, &buffer[..len]))
}

// An integer of this kind that is not null.
fn format_integer(
    out: &mut [u8],
    e: Element,
    form: IntegerForm,
    kind: IntegerKind,
    value: u64,
) -> Size
    ensures { Sized out.old (integer_text e form kind value) result out.new }
{
    match form {
        IntegerForm::Numeral(radix) => { Ok(numbers::format_numeral(out, e, radix, kind, value)) }
        IntegerForm::Scalar => format_char(out, e, kind.signed, value),
        IntegerForm::Digits => { Ok(fields::format_signed_text(out, e, kind.signed, value)) }
    }
}

// %a
fn format_hex_float(out: &mut [u8], e: Element, bits: u64) -> u64
    ensures { Put out.old (float_text e (category_of bits) bits) result out.new × (result < 2 ^ 42) }
{
    match binary64::category(bits) {
        FpCategory::Nan => fields::put_padded(out, e, Mark::NoMark, b"NaN"),
        FpCategory::Infinite => {
            let mark = numbers::float_mark(e.flags, binary64::to_parts(bits).negative);
            fields::put_padded(out, e, mark, b"Infinity")
        }
        FpCategory::Finite => numbers::format_finite(out, e, bits),
    }
}

// A Boolean; null has the value 0.
fn format_boolean(out: &mut [u8], e: Element, value: u64) -> u64
    ensures { Put out.old (format_string e (boolean_word value)) result out.new × (result < 2 ^ 42) }
{
    if value == 0 {
        fields::format_string(out, e, b"false")
    } else {
        fields::format_string(out, e, b"true")
    }
}

// t, and T where upper is set.
#[tactic(auto, using(crate::proofs::Shown::shown))]
fn format_time(out: &mut [u8], component: TimeFormat, value: u64, upper: bool) -> Size
    ensures { Sized out.old (time_text upper component (int_of 64 value)) result out.new }
{
    if dates::components::is_early_fraction(value) {
        return Err(Refusal::NoWholeSecond);
    }
    // Called from two places, so that it is compiled apart from the loop over pieces, which has to be quick for numbers.
    let n = if upper {
        dates::put_component(out, component, value, true)
    } else {
        dates::put_component(out, component, value, false)
    };
    Ok(n as u64)
}

// Writes an element where there is room for it.
#[tactic(auto, using(crate::proofs::PieceTexts::entries), unfolding(crate::specs::Texts::element_text, crate::specs::Ready::unpadded))]
fn put_element(out: &mut [u8], fmt: &[u8], row: &[u8], e: Element) -> Size
    requires { Suited row.now e }
    ensures { Sized out.old (shown_entry row.now e (entry_at row.now e.argument)) result out.new }
{
    let entry = rows::entry(row, e.argument);
    match e.form {
        Form::Integer { .. } if entry.null => Ok(fields::format_string(out, e, b"null")),
        Form::Integer { form, kind } => format_integer(out, e, form, kind, entry.value),
        Form::HexFloat => Ok(format_hex_float(out, e, entry.value)),
        Form::Boolean => Ok(format_boolean(out, e, entry.value)),
        Form::Text => {
            let source = Source::Row {
                entry,
                precision: e.precision,
            };
            let text = pieces::unpadded_text(fmt, row, source);
            Ok(fields::put_padded(out, e, Mark::NoMark, text))
        }
        Form::Time(component) => format_time(out, component, entry.value, e.upper),
        Form::NotPrinted => Err(Refusal::NotPrinted),
    }
}
