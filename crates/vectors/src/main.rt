// Runs the lists of vectors in its folder: each record's call is made, and its answer compared with the one that the record states.
#![tactic(auto)]

ghost use Rattle.std.specs.Prelude.{◌≡◌, ◌+◌, ◌≤◌, ◌<◌, IfOk, IfSome, length};
ghost use Rattle.records.specs.Stated.{TextLies};
ghost use Rattle.records.specs.Places.{Lies};
ghost use Rattle.records.specs.Verdicts.{verdicts, Counts};
ghost use Rattle.vectors.specs.Right.{states_checked, checks_right, prints_right, is_right};
ghost use Rattle.vectors.specs.Left.{states_left, InRoom};

use outcomes::Outcome;
use parsing::Checked;
use records::statements::Stated;
use records::{Record, Tally};
use refusals::Stop;
use std::rt::Files;
use std::{fs, io};

// Whether a record states what checking answered. It and is_left, which says so of printing, differ in all but what a refusal states.
fn is_answered(stated: Stated, answer: Result<Checked, Stop>) -> bool
    ensures { result ≡ states_checked stated answer }
{
    match answer {
        Ok(found) => records::statements::is_accepted(stated, found.pieces, found.largest),
        Err(stop) => { records::statements::is_refused(stated, stop.refusal.number(), stop.place) }
    }
}

// Whether a record of checking states what its format, checked against its kinds, gives.
#[tactic(auto, unfolding(crate::specs::Right::checks_right))]
fn checks_right(list: &[u8], rec: Record) -> bool
    requires { Lies (length list.now) rec }
    ensures { result ≡ checks_right list.now rec }
{
    let found = printing::check(
        &list[rec.format..rec.values - 2],
        &list[rec.values..rec.tag],
    );
    is_answered(rec.stated, found)
}

// Whether a record states what printing answered and left.
fn is_left(list: &[u8], stated: Stated, answer: Outcome, out: &[u8], ends: &[u32]) -> bool
    requires { (TextLies (length list.now) stated) × (InRoom answer (length out.now) (length ends.now)) }
    ensures { result ≡ states_left list.now stated out.now ends.now answer }
{
    match answer {
        Ok(found) => records::statements::is_printed(
            list,
            stated,
            &out[..found.length as usize],
            &ends[..found.pieces as usize],
        ),
        Err(stop) => { records::statements::is_refused(stated, stop.refusal.number(), stop.place) }
    }
}

// Whether a record of printing states what its row, printed under its format, gives.
#[tactic(auto, using(crate::proofs::Answers::in_room, crate::proofs::Answers::left_right), unfolding(crate::specs::Right::prints_right))]
fn prints_right(list: &[u8], rec: Record) -> bool
    requires { Lies (length list.now) rec }
    ensures { result ≡ prints_right list.now rec }
{
    let mut out = [0u8; 2048];
    let mut ends = [0u32; 512];
    let found = printing::print(
        &list[rec.format..rec.values - 2],
        &list[rec.values..rec.tag],
        &mut out,
        &mut ends,
    );
    is_left(list, rec.stated, found, &out, &ends)
}

// Whether a record states what its call gives.
fn is_right(list: &[u8], rec: Record) -> bool
    requires { Lies (length list.now) rec }
    ensures { result ≡ is_right list.now rec }
{
    if rec.prints {
        prints_right(list, rec)
    } else {
        checks_right(list, rec)
    }
}

// A list from its first record on, to its end or to a record that breaks the layout, which does not hold and is the last.
#[tactic(auto, using(records::proofs::Counting::counting_end, records::proofs::Counting::counting_broken))]
fn run_list(list: &[u8]) -> Tally
    ensures counts { Counts (verdicts (is_right list.now) list.now) result }
    ensures failed_in_bounds { result.passed + result.failed ≤ length list.now }
{
    let mut t = Tally::default();
    while let Some(rec) = records::record_at(list, t.at) {
        t = t.counted(rec.next, is_right(list, rec));
    }
    if t.at < list.len() {
        t.counted(t.at, false)
    } else {
        t
    }
}

// Names the records of a list that differ, up to the first that breaks the layout: as many as are to be named. A loop of its own beside run_list: it stops
// early and prints, and run_list, which does not print, is proved to count.
fn report_list(rt: &impl Print, name: &str, list: &[u8], named: usize) -> io::Result<()> {
    let mut t = Tally::default();
    while let Some(rec) = records::record_at(list, t.at) {
        if named <= t.failed {
            return Ok(());
        }
        let right = is_right(list, rec);
        t = t.counted(rec.next, right);
        if !right {
            println!(rt; "{name}: record {} differs", t.passed + t.failed)?;
        }
    }
    Ok(())
}

// The line of a list, or of all.
fn count_line(rt: &impl Print, name: &str, t: Tally) -> io::Result<()> {
    println!(rt; "{name}: {} passed, {} failed", t.passed, t.failed)
}

// What came of a list of n bytes.
fn summary(rt: &impl Print, name: &str, t: Tally, n: usize) -> io::Result<()> {
    if t.at < n {
        println!(rt; "{name}: the list is broken at byte {}", t.at)?;
    }
    count_line(rt, name, t)
}

// Reads a list into a slice: how long it is, if it is there and fits.
fn read_list(rt: &impl Files, file: &str, list: &mut [u8]) -> io::Result<Option<usize>>
    ensures { IfOk result (λ r. IfSome r (λ n. n < length list.new)) }
{
    let Ok(mut source) = fs::open(rt, file) else {
        return Ok(None);
    };
    let n = inputs::read_full(&mut source, list)?;
    Ok((n < list.len()).then_some(n))
}

// The list in a file. One that is missing, or does not fit into the array, counts as one failure.
fn run_file(rt: &(impl Files + Print), file: &str, name: &str, named: usize) -> io::Result<Tally>
    ensures { IfOk result (λ t. t.passed + t.failed ≤ 262144) }
{
    let mut list = [0u8; 262144];
    let Some(n) = read_list(rt, file, &mut list)? else {
        println!(rt; "{name}: the list is missing or too long")?;
        return Ok(Tally {
            at: 0,
            passed: 0,
            failed: 1,
        });
    };
    let t = run_list(&list[..n]);
    if t.failed > 0 {
        report_list(rt, name, &list[..n], named)?;
    }
    summary(rt, name, t, n)?;
    Ok(t)
}

// The lists that are added up: the order's cases, the original's answers, and dates, the original's and Java's.
const LISTS: [(&str, &str); 5] = [
    ("check.vec", "check"),
    ("print.vec", "print"),
    ("original.vec", "original"),
    ("dates.vec", "dates"),
    ("java.vec", "java"),
];

fn run_lists(rt: &(impl Files + Print)) -> io::Result<Tally>
    ensures { IfOk result (λ t. t.passed + t.failed ≤ 1310720) }
{
    let mut all = Tally::default();
    for (file, name) in LISTS {
        all = all.added(run_file(rt, file, name, 20)?);
    }
    Ok(all)
}

// The failures of the list of wrong records are wanted, and are neither named nor added up.
fn main(rt: HostRuntime) -> io::Result<()> {
    count_line(&rt, "all", run_lists(&rt)?)?;
    run_file(&rt, "wrong.vec", "wrong", 0)?;
    Ok(())
}
