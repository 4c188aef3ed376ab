// The text of a component of a date, written part by part.
// Ported from format_string.rs of datafusion-spark 55.2.0 (Apache-2.0; see NOTICE): the writing of format_time_component.
#![tactic(auto)]

pub mod components;

ghost use Rattle.std.specs.Prelude.{◌≤◌, length};
ghost use Rattle.writing.specs.Writers.{Wrote, Put};
ghost use Rattle.numerals.specs.Integers.{int_of};
ghost use Rattle.fields.specs.Cut.{cased};
ghost use Rattle.dates.specs.Components.{number_text, symbols_text, component_text};
ghost use Rattle.dates.specs.Steps.{part_text, Fitting, room_of, room_for};

use calendar::Moment;
use components::TimePart;
use kinds::letters::TimeFormat;
use numerals::Radix;

// Writes a number at so many places at least. Answers its length.
#[tactic(auto, using(numerals::proofs::Digits::twenty_places, numerals::proofs::Digits::length_letters_in), unfolding(crate::specs::Components::number_text))]
fn write_number(out: &mut [u8], value: u64, least: usize) -> usize
    requires { (least ≤ 20) × (20 ≤ length out.old) }
    ensures { Wrote out.old (number_text least value) result out.new × (result ≤ 20) }
{
    let n = numerals::decimal_len(value).max(least);
    numerals::write_digits(out, value, Radix::Decimal, n, false)
}

// Writes a part. Answers its length.
#[tactic(auto, using(writing::proofs::Laid::rooms))]
fn write_part(out: &mut [u8], part: TimePart) -> usize
    requires { Fitting part × (room_of part ≤ length out.old) }
    ensures { Wrote out.old (part_text part) result out.new × (result ≤ room_of part) }
{
    match part {
        TimePart::Number(least, value) => write_number(out, value, least),
        TimePart::Word(word) => writing::write_text(out, word),
        TimePart::Byte(b) => {
            out[0] = b;
            1
        }
    }
}

// Writes what letters print of a timestamp, whose moment is m. Answers the length.
#[tactic(auto, using(crate::proofs::Symbols::rooms), unfolding(crate::specs::Components::symbols_text, crate::specs::Steps::room_for))]
fn write_symbols(out: &mut [u8], letters: &[u8], m: Moment, timestamp: u64) -> usize
    requires { room_for letters.now ≤ length out.old }
    ensures { Wrote out.old (symbols_text (int_of 64 timestamp) m letters.now) result out.new × (result ≤ room_for letters.now) }
{
    let mut at = 0;
    for &letter in letters {
        at += write_part(&mut out[at..], components::part_of(letter, m, timestamp));
    }
    at
}

// Writes a component of a timestamp. Answers its length.
#[tactic(auto, using(crate::proofs::Symbols::room_of_pattern), unfolding(crate::specs::Components::component_text))]
fn write_component(out: &mut [u8], component: TimeFormat, timestamp: u64) -> usize
    requires { 168 ≤ length out.old }
    ensures { Wrote out.old (component_text component (int_of 64 timestamp)) result out.new × (result ≤ 168) }
{
    let m = calendar::moment_of(timestamp);
    write_symbols(out, components::pattern_of(component), m, timestamp)
}

// Writes a component of a timestamp, in capitals where upper is set, where there is room for it. Answers its length.
#[tactic(auto, using(crate::proofs::Symbols::copied))]
pub fn put_component(out: &mut [u8], component: TimeFormat, timestamp: u64, upper: bool) -> usize
    ensures { Put out.old (cased upper (component_text component (int_of 64 timestamp))) result out.new × (result ≤ 168) }
{
    let mut buffer = [0u8; 168];
    let n = write_component(&mut buffer, component, timestamp);
    fields::strings::put_cased(out, &buffer[..n], upper)
}
