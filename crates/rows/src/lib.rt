// The row of values: its layout tested, and the entry of each argument.
#![tactic(auto)]

pub mod entries;

ghost use Rattle.std.specs.Prelude.{◌≡◌, ◌+◌, ◌*◌, ◌^◌, ◌<◌, ◌≤◌, length};
ghost use Rattle.rows.specs.Entry.{is_entry};
ghost use Rattle.rows.specs.Row.{count_of, text_area, entry_at, named_text, entries_from};
ghost use Rattle.rows.specs.Arguments.{Argument, Names, row_of};
ghost use Rattle.rows.specs.Widths.{HasWidth};

use entries::Entry;

// How many arguments a row says it has.
fn count_of(row: &[u8]) -> usize
    requires { 2 ≤ length row.now }
    ensures { result ≡ count_of row.now }
{
    words::word_at::<2>(row, 0) as usize
}

// The entry of an argument of a row with count arguments.
#[tactic(auto, using(crate::proofs::Widths::has_width), unfolding(crate::specs::Row::entry_at))]
fn entry_in(row: &[u8], count: usize, argument: usize) -> Entry
    requires { (count ≡ count_of row.now) × (6 + 9 * count ≤ length row.now) × (1 ≤ argument) × (argument ≤ count) }
    ensures { (result ≡ entry_at row.now argument) × HasWidth result.kind }
{
    let value = words::word_at::<8>(row, 6 + count + 8 * (argument - 1));
    entries::entry_of(row[5 + argument], value)
}

// Whether that entry may stand in the row.
fn is_entry_in(row: &[u8], count: usize, argument: usize) -> bool
    requires { (count ≡ count_of row.now) × (6 + 9 * count ≤ length row.now) × (1 ≤ argument) × (argument ≤ count) }
    ensures { result ≡ is_entry (text_area row.now) (entry_at row.now argument) }
{
    entries::is_entry(entry_in(row, count, argument), &row[6 + 9 * count..])
}

// Whether the n entries of a row are entries.
fn are_entries(row: &[u8], n: usize) -> bool
    requires { (n ≡ count_of row.now) × (6 + 9 * n ≤ length row.now) }
    ensures { result ≡ entries_from n row.now 1 }
{
    (0..n).all(|i| is_entry_in(row, n, i + 1))
}

// How many arguments a row has that keeps its layout; any other is refused with 14.
#[tactic(auto, unfolding(crate::specs::Row::is_row, crate::specs::Arguments::row_of))]
pub fn read_row(row: &[u8]) -> Option<usize>
    ensures { result ≡ row_of row.now }
{
    if row.len() < 6 {
        return None;
    }
    let n = words::word_at::<2>(row, 0);
    let t = words::word_at::<4>(row, 2);
    if refusals::MOST_VALUES < n || refusals::MOST_TEXT < t {
        return None;
    }
    let count = n as usize;
    let kept = row.len() == 6 + 9 * count + t as usize && are_entries(row, count);
    kept.then_some(count)
}

// The entry of an argument.
#[tactic(auto, using(crate::proofs::Rows::row_shape))]
pub fn entry(row: &[u8], argument: usize) -> Entry
    requires { Argument row.now argument }
    ensures { result ≡ entry_at row.now argument }
{
    entry_in(row, count_of(row), argument)
}

// The text that an entry of kind 7 names.
#[tactic(auto, using(crate::proofs::Arguments::text_room, crate::proofs::Arguments::text_part, crate::proofs::Arguments::text_short))]
pub fn named_text(row: &[u8], e: Entry) -> &[u8]
    requires { Names row.now e }
    ensures { (result.now ≡ named_text row.now e) × (length result.now < 2 ^ 32) }
{
    let start = 6 + 9 * count_of(row) + (e.value % 4294967296) as usize;
    let len = (e.value / 4294967296) as usize;
    &row[start..start + len]
}
