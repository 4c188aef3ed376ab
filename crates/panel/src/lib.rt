// The panel's C entries: checking, measuring and printing on numbers and byte slices, and a list of gates that join and leave. panel.h has their meaning
// for C.
#![tactic(auto)]

ghost use Rattle.std.specs.Prelude.{◌≡◌, ◌*◌, ◌/◌, ◌≤◌, length};
ghost use Rattle.parsing.specs.Check.{checked};
ghost use Rattle.outcomes.specs.Printed.{measured, printed};
ghost use Rattle.writing.specs.Laid.{laid};
ghost use Rattle.gates.specs.Gates.{joins};
ghost use Rattle.live.specs.Lists.{Represents};
ghost use Rattle.live.specs.Promises.{Emptied, Changes, Leaves, Lengths};
ghost use Rattle.panel.specs.Entries.{check_answer, print_answer, Holds, Prints, BothLaid, PanelPrints};

use gates::Changed;
use live::GateList;
use outcomes::{Measured, Outcome};
use parsing::Checked;
use refusals::Stop;

// number is 0 where the format is accepted; else it is the refusal's, with its place. For C, which has no Result.
#[repr(C)]
#[derive(Clone, Copy)]
pub struct CheckAnswer {
    pub number: u64,
    pub place: u64,
    pub pieces: u64,
    pub largest: u64,
}

// number is 0 where the row is printed or measured; else it is the refusal's, with its place. For C, which has no Result.
#[repr(C)]
#[derive(Clone, Copy)]
pub struct PrintAnswer {
    pub number: u64,
    pub place: u64,
    pub length: u64,
    pub pieces: u64,
}

fn check_answer(answer: Result<Checked, Stop>) -> CheckAnswer
    ensures { result ≡ check_answer answer }
{
    match answer {
        Ok(found) => CheckAnswer {
            number: 0,
            place: 0,
            pieces: found.pieces as u64,
            largest: found.largest as u64,
        },
        Err(stop) => CheckAnswer {
            number: stop.refusal.number() as u64,
            place: stop.place as u64,
            pieces: 0,
            largest: 0,
        },
    }
}

fn print_answer(answer: Outcome) -> PrintAnswer
    ensures { result ≡ print_answer answer }
{
    match answer {
        Ok(found) => PrintAnswer {
            number: 0,
            place: 0,
            length: found.length,
            pieces: found.pieces,
        },
        Err(stop) => PrintAnswer {
            number: stop.refusal.number() as u64,
            place: stop.place as u64,
            length: 0,
            pieces: 0,
        },
    }
}

// Checks a format against kinds.
#[unsafe(no_mangle)]
pub extern "C" fn panel_check(fmt: &[u8], kinds: &[u8]) -> CheckAnswer
    ensures { result ≡ check_answer (checked fmt.now kinds.now) }
{
    check_answer(printing::check(fmt, kinds))
}

// Measures a row under a format.
#[unsafe(no_mangle)]
pub extern "C" fn panel_measure(fmt: &[u8], row: &[u8]) -> PrintAnswer
    ensures { result ≡ print_answer (measured fmt.now row.now) }
{
    print_answer(printing::measure(fmt, row))
}

// Prints an accepted row by a pass of its own. A format has at most 512 pieces.
#[tactic(auto, using(crate::proofs::Slots::slots))]
fn print_long(fmt: &[u8], row: &[u8], out: &mut [u8], ends: &mut [u8], found: Measured)
    requires { printed fmt.now row.now (length out.old) (length ends.old / 4) ≡ Ok found }
    ensures { BothLaid fmt.now row.now out.old ends.old out.new ends.new }
{
    let mut slots = [0u32; 512];
    let _ = printing::stage(fmt, row, out, &mut slots);
    words::write_fours(ends, &slots[..found.pieces as usize]);
}

// Prints an accepted row: from text and slots where these hold it, else by another pass.
#[tactic(auto, using(crate::proofs::Slots::slots))]
fn print_accepted(
    fmt: &[u8],
    row: &[u8],
    out: &mut [u8],
    ends: &mut [u8],
    text: &[u8],
    slots: &[u32],
    found: Measured,
)
    requires ends_value { printed fmt.now row.now (length out.old) (length ends.old / 4) ≡ Ok found }
    requires holds { Holds fmt.now row.now found.length found.pieces text.now slots.now }
    ensures { BothLaid fmt.now row.now out.old ends.old out.new ends.new }
{
    if found.length <= text.len() as u64 && found.pieces <= slots.len() as u64 {
        writing::write_text(out, &text[..found.length as usize]);
        words::write_fours(ends, &slots[..found.pieces as usize]);
    } else {
        print_long(fmt, row, out, ends, found);
    }
}

// The pass that excludes every refusal leaves a short text and its ends ready to be copied. Without a heap these are arrays, of which the first part counts.
#[tactic(auto, using(crate::proofs::Slots::staged), unfolding(outcomes::specs::Printed::printed))]
fn print_staged(fmt: &[u8], row: &[u8], out: &mut [u8], ends: &mut [u8]) -> Outcome
    ensures { Prints fmt.now row.now out.old ends.old result out.new ends.new }
{
    let mut text = [0u8; 256];
    let mut slots = [0u32; 64];
    let staged = printing::stage(fmt, row, &mut text, &mut slots);
    let found = printing::fit(staged, out.len() as u64, (ends.len() / 4) as u64)?;
    print_accepted(fmt, row, out, ends, &text, &slots, found);
    Ok(found)
}

// Prints a row under a format.
#[unsafe(no_mangle)]
#[tactic(auto, using(crate::proofs::Slots::prints))]
pub extern "C" fn panel_print(
    fmt: &[u8],
    row: &[u8],
    out: &mut [u8],
    ends: &mut [u8],
) -> PrintAnswer
    ensures { PanelPrints fmt.now row.now out.old ends.old result out.new ends.new }
{
    print_answer(print_staged(fmt, row, out, ends))
}

// Empties a list of gates.
#[unsafe(no_mangle)]
pub extern "C" fn panel_list_empty(list: &mut GateList)
    ensures { Emptied Represents list.new }
{
    list.empty();
}

// A gate joins a list, with its row under the list's format.
#[unsafe(no_mangle)]
pub extern "C" fn panel_list_join(list: &mut GateList, gate: u32, fmt: &[u8], row: &[u8]) -> Changed
    ensures { Changes Represents fmt.now (joins gate row.now) list.old result list.new }
{
    list.join(gate, fmt, row)
}

// A gate leaves a list.
#[unsafe(no_mangle)]
pub extern "C" fn panel_list_leave(list: &mut GateList, gate: u32) -> Changed
    ensures { Leaves Represents gate list.old result list.new }
{
    list.leave(gate)
}

// The largest lengths of a list.
#[unsafe(no_mangle)]
pub extern "C" fn panel_list_lengths(list: &GateList, lengths: &mut [u64; 512])
    ensures { Lengths Represents list.now lengths.new }
{
    list.lengths(lengths);
}
