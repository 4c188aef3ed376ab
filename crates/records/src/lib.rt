// The records of a list of vectors: one is read, it is counted, and the counts of lists are added up. crates/vectors/README.md has the layout.
#![tactic(auto)]

pub mod statements;

ghost use Rattle.std.specs.Prelude.{◌≡◌, ◌+◌, ◌≤◌, ◌<◌};
ghost use Rattle.records.specs.Records.{part_end, accepts_at, refuses_at, ends_at, prints_at, stated_at, record_at};
ghost use Rattle.records.specs.Places.{EndLies, ReadLies, FoundLies};
ghost use Rattle.records.specs.Verdicts.{with_verdict};

use statements::Stated;

// A record by its places in the list: the format up to the two bytes before the values, its kinds or its row, these up to the tag. It is of printing, or
// else of checking.
#[derive(Clone, Copy)]
pub struct Record {
    pub prints: bool,
    pub format: usize,
    pub values: usize,
    pub tag: usize,
    pub stated: Stated,
    pub next: usize,
}

// Where a list stands: the next record's place, and the records so far that hold, and that do not.
#[derive(Clone, Copy, Default)]
pub struct Tally {
    pub at: usize,
    pub passed: usize,
    pub failed: usize,
}

// The end of the part at a place. A list and a place in it stay two parameters here and below: each call is at another place, and a struct of both would
// be made anew for each.
#[tactic(auto, unfolding(crate::specs::Records::part_end))]
fn part_end(list: &[u8], at: usize) -> Option<usize>
    ensures { (result ≡ part_end list.now at) × (EndLies list.now at result) }
{
    let left = list.get(at..)?.len();
    if left < 2 {
        return None;
    }
    let n = words::word_at::<2>(list, at) as usize;
    if left - 2 < n {
        return None;
    }
    Some(at + 2 + n)
}

// What is stated at a place, and the place behind it: here and below. What they make of the bytes differs, not how many these are alone.
#[tactic(auto, unfolding(crate::specs::Records::accepts_at))]
fn accepts_at(list: &[u8], at: usize) -> Option<(Stated, usize)>
    ensures { (result ≡ accepts_at list.now at) × (ReadLies list.now at result) }
{
    if list.get(at..)?.len() < 4 {
        return None;
    }
    let pieces = words::word_at::<2>(list, at) as usize;
    let largest = words::word_at::<2>(list, at + 2) as usize;
    Some((Stated::Accepts { pieces, largest }, at + 4))
}

#[tactic(auto, unfolding(crate::specs::Records::refuses_at))]
fn refuses_at(list: &[u8], at: usize) -> Option<(Stated, usize)>
    ensures { (result ≡ refuses_at list.now at) × (ReadLies list.now at result) }
{
    if list.get(at..)?.len() < 3 {
        return None;
    }
    let place = words::word_at::<2>(list, at + 1) as usize;
    Some((
        Stated::Refuses {
            number: list[at],
            place,
        },
        at + 3,
    ))
}

// A text that begins at a place and ends at another, and the ends behind it.
#[tactic(auto, unfolding(crate::specs::Records::ends_at))]
fn ends_at(list: &[u8], text: usize, end: usize) -> Option<(Stated, usize)>
    requires { text ≤ end }
    ensures { (result ≡ ends_at list.now text (Some end)) × (ReadLies list.now text result) }
{
    let left = list.get(end..)?.len();
    if left < 2 {
        return None;
    }
    let pieces = words::word_at::<2>(list, end) as usize;
    if left - 2 < 4 * pieces {
        return None;
    }
    Some((Stated::Prints { text, end, pieces }, end + 2 + 4 * pieces))
}

#[tactic(auto, unfolding(crate::specs::Records::prints_at, crate::specs::Records::ends_at))]
fn prints_at(list: &[u8], at: usize) -> Option<(Stated, usize)>
    ensures { (result ≡ prints_at list.now at) × (ReadLies list.now at result) }
{
    let end = part_end(list, at)?;
    ends_at(list, at + 2, end)
}

// What is stated at a place, behind a tag, which may be any byte.
#[tactic(auto, unfolding(crate::specs::Records::stated_at))]
fn stated_at(list: &[u8], tag: u8, at: usize) -> Option<(Stated, usize)>
    ensures { (result ≡ stated_at list.now tag at) × (ReadLies list.now at result) }
{
    match tag {
        0 => accepts_at(list, at),
        1 | 3 => refuses_at(list, at),
        2 => prints_at(list, at),
        _ => None,
    }
}

// The record at a place.
#[tactic(auto, unfolding(crate::specs::Records::record_at))]
pub fn record_at(list: &[u8], at: usize) -> Option<Record>
    ensures { (result ≡ record_at list.now at) × (FoundLies list.now at result) }
{
    let end = part_end(list, at)?;
    let tag = part_end(list, end)?;
    let kind = *list.get(tag)?;
    let (stated, next) = stated_at(list, kind, tag + 1)?;
    Some(Record {
        prints: kind >= 2,
        format: at + 2,
        values: end + 2,
        tag,
        stated,
        next,
    })
}

impl Tally {
    // One record more, which holds or does not, and the place behind it.
    pub fn counted(self, next: usize, holds: bool) -> Tally
        requires { self.passed + self.failed < usize.MAX }
        ensures { result ≡ with_verdict holds next self }
    {
        if holds {
            Tally {
                at: next,
                passed: self.passed + 1,
                ..self
            }
        } else {
            Tally {
                at: next,
                failed: self.failed + 1,
                ..self
            }
        }
    }

    // What came of two lists together.
    pub fn added(self, other: Tally) -> Tally
        requires { (self.passed + self.failed ≤ 1048576) × (other.passed + other.failed ≤ 1048576) }
        ensures { (result.at ≡ 0) × (result.passed ≡ self.passed + other.passed) × (result.failed ≡ self.failed + other.failed) }
    {
        Tally {
            at: 0,
            passed: self.passed + other.passed,
            failed: self.failed + other.failed,
        }
    }
}
