// Checking a format against kinds, and measuring and printing a row under a format.
// Ported from format_string.rs of datafusion-spark 55.2.0 (Apache-2.0; see NOTICE): the loops of Formatter::parse and Formatter::format. The original
// pushes the text of each element to a string; here one pass over the pieces finds every refusal and the text's length, and writes as far as it has
// room; what is lent to a caller is written only once no refusal is left.
// Format, row, text and ends are handed on one by one, as C lends them: a struct of them would be made at one call and taken apart at the next.
#![tactic(auto)]

pub mod passes;
pub mod tallies;

ghost use Rattle.std.specs.Prelude.{◌≡◌, length};
ghost use Rattle.parsing.specs.Check.{checked};
ghost use Rattle.outcomes.specs.Printed.{texts, printed_text, ends_from, measured, if_room, printed, written};
ghost use Rattle.printing.specs.Stages.{Staged, format_stop};
ghost use Rattle.printing.specs.Tallies.{outcome_of};
ghost use Rattle.printing.specs.Passes.{checked_by};
ghost use Rattle.outcomes.specs.Demand.{Demanded};

use outcomes::{Measured, Outcome};
use parsing::Checked;
use passes::Walked;
use refusals::{Refusal, Stop};

// The answer of checking, from a pass.
fn checked_of(w: Walked) -> Result<Checked, Stop>
    ensures { result ≡ checked_by w }
{
    w.end?;
    Ok(Checked {
        pieces: w.pieces,
        largest: w.largest,
    })
}

// What is wrong with a format as a whole: 1 and 2.
#[tactic(auto, unfolding(crate::specs::Stages::format_stop))]
fn check_format(fmt: &[u8]) -> Result<(), Stop>
    ensures { result ≡ format_stop fmt.now }
{
    if refusals::MOST_FORMAT < fmt.len() {
        return Err(Refusal::LongFormat.at(0));
    }
    if !utf8::is_well_formed(fmt) {
        return Err(Refusal::MalformedFormat.at(0));
    }
    Ok(())
}

// A format checked against kinds. No byte of either is read more often than a bounded number of times.
#[tactic(auto, using(crate::proofs::Formats::checks, crate::proofs::Outcomes::walk_checked))]
pub fn check(fmt: &[u8], kinds: &[u8]) -> Result<Checked, Stop>
    ensures { result ≡ checked fmt.now kinds.now }
{
    check_format(fmt)?;
    if refusals::MOST_KINDS < kinds.len() || !kinds::all_known(kinds) {
        return Err(Refusal::BadKinds.at(0));
    }
    checked_of(passes::walk(fmt, &fmt[..0], kinds, false, &mut [], &mut []))
}

// The outcome of a pass: where reading ended comes before the first piece that is not printed.
fn outcome_of(w: Walked) -> Outcome
    ensures { result ≡ outcome_of w.end w.tally w.pieces }
{
    w.end?;
    let length = w.tally?;
    Ok(Measured {
        length,
        pieces: w.pieces as u64,
    })
}

// The outcome of measuring. The texts are written up to the first piece that has no room, is refused or is not printed, and each one's end that has a
// slot, in 32 bits, whether the text has room or not.
#[tactic(auto, using(crate::proofs::Formats::stages))]
pub fn stage(fmt: &[u8], row: &[u8], out: &mut [u8], ends: &mut [u32]) -> Outcome
    ensures value { result ≡ measured fmt.now row.now }
    ensures staged { Staged fmt.now row.now out.old ends.old out.new ends.new }
{
    check_format(fmt)?;
    let Some(count) = rows::read_row(row) else {
        return Err(Refusal::BrokenRow.at(0));
    };
    // Format and row are lent anew, which costs a pass less time than handing on the slices that came (docs/DECISIONS.md, 67).
    outcome_of(passes::walk(&fmt[..], &row[..], &row[6..6 + count], true, out, ends))
}

// The text's length and the number of pieces; nothing is written.
pub fn measure(fmt: &[u8], row: &[u8]) -> Outcome
    ensures { result ≡ measured fmt.now row.now }
{
    stage(fmt, row, &mut [], &mut [])
}

// 17 for a text without room, or with more pieces than ends.
pub fn fit(found: Outcome, room: u64, slots: u64) -> Outcome
    ensures { result ≡ if_room room slots found }
{
    let m = found?;
    if m.length <= room && m.length <= refusals::LARGEST_END && m.pieces <= slots {
        Ok(m)
    } else {
        Err(Refusal::NoRoom.at(0))
    }
}

// Prints a row: every refusal first, and nothing is written before the last of them is excluded.
#[tactic(auto, unfolding(outcomes::specs::Printed::printed))]
pub fn print(fmt: &[u8], row: &[u8], out: &mut [u8], ends: &mut [u32]) -> Outcome
    ensures value { result ≡ printed fmt.now row.now (length out.old) (length ends.old) }
    ensures out_after { out.new ≡ written result out.old (printed_text fmt.now row.now) }
    ensures ends_after { ends.new ≡ written result ends.old (ends_from 0 (texts fmt.now row.now)) }
    ensures demanded { Demanded fmt.now row.now result out.new ends.new }
{
    let found = measure(fmt, row);
    fit(found, out.len() as u64, ends.len() as u64)?;
    stage(fmt, row, out, ends)
}
