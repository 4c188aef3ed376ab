// One piece more of a pass: its text behind those before it as far as there is room, its end, and the length of all.
// Ported from format_string.rs of datafusion-spark 55.2.0 (Apache-2.0; see NOTICE): how the loop of Formatter::format puts a piece behind those
// before it.
ghost use Rattle.std.specs.Prelude.{◌≡◌, ◌+◌, ◌≤◌, ◌<◌};
ghost use Rattle.elements.specs.Sizes.{size_of, SizeBelow};
ghost use Rattle.elements.specs.PieceTexts.{shown_piece, piece_text};
ghost use Rattle.elements.specs.Ready.{Ready};
ghost use Rattle.printing.specs.Tallies.{TallyBelow, behind, with_end, added, laid_behind};

use elements::Size;
use parsing::Piece;
use refusals::Stop;

// What a pass adds up: the length of the pieces so far, or the first of them that is not printed.
pub type Tally = Result<u64, Stop>;

// Where the next piece goes in so much room.
fn place_behind(tally: Tally, room: usize) -> usize
    ensures { (result ≡ behind tally room) × (result ≤ room) }
{
    match tally {
        Ok(n) if n < room as u64 => n as usize,
        _ => room,
    }
}

// Writes a piece behind the pieces so far, into the output's part from there on, where there is room for it. Answers its size.
#[tactic(auto, using(crate::proofs::Behind::put_behind))]
pub(crate) fn put_behind(fmt: &[u8], row: &[u8], piece: Piece, tally: Tally, out: &mut [u8]) -> Size
    requires { Ready fmt.now row.now piece }
    ensures value { (result ≡ size_of (shown_piece fmt.now row.now piece)) × SizeBelow result }
    ensures out_after { out.new ≡ laid_behind tally out.old (piece_text fmt.now row.now piece) }
{
    let from = place_behind(tally, out.len());
    elements::pieces::put_piece(&mut out[from..], fmt, row, piece)
}

// One more size, of the k-th piece, which begins at a place, and its end. The first piece that is not printed stays.
pub(crate) fn add_size(tally: Tally, size: Size, at: usize, k: usize, ends: &mut [u32]) -> Tally
    requires { (SizeBelow size) × (k < 512) × (TallyBelow k tally) }
    ensures { (result ≡ added at size tally) × (TallyBelow (k + 1) result) × (ends.new ≡ with_end k result ends.old) }
{
    let n = tally?;
    let end = n + size.map_err(|refusal| refusal.at(at))?;
    if k < ends.len() {
        ends[k] = (end % 4294967296) as u32;
    }
    Ok(end)
}
