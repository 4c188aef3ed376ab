// A frame written around the place of a text.
// Ported in part from format_string.rs of datafusion-spark 55.2.0 (Apache-2.0; see NOTICE): the padding of format_signed,
// format_unsigned, format_str and format_hex_float.
ghost use Rattle.std.specs.Prelude.{◌≡◌, ◌+◌, ◌^◌, ◌≤◌, ◌<◌, ℕ, List, leb, length};
ghost use Rattle.std.specs.Fn.{FnOnceReturnsAtMut};
ghost use Rattle.writing.specs.Writers.{Wrote, Put};
ghost use Rattle.frames.specs.Frame.{marks, head_text, tail_text, frame_of, padded};
ghost use Rattle.frames.specs.Around.{around, FramePut};

use crate::{Adjust, Frame, Mark, Prefix};
use writing::write_fill;

// What put_frame answers: how many bytes the frame adds, and where the text goes, if both fit.
#[derive(Clone, Copy)]
pub struct Framed {
    pub added: u64,
    pub at: Option<usize>,
}

// Writes a text of at most two bytes. Answers its length. Not by write_text: its call takes 3 to 7 % of a row with marks.
fn write_short(out: &mut [u8], text: &[u8]) -> usize
    requires { (length text.now ≤ 2) × (length text.now ≤ length out.old) }
    ensures { Wrote out.old text.now result out.new }
{
    match text {
        [] => 0,
        [a] => {
            out[0] = *a;
            1
        }
        [a, b, ..] => {
            out[0] = *a;
            out[1] = *b;
            2
        }
    }
}

// Writes mark and prefix. Answers their length.
#[tactic(auto, using(crate::proofs::Lengths::lengths, writing::proofs::Chained::wrote_two))]
fn write_marks(out: &mut [u8], mark: Mark, prefix: Prefix) -> usize
    requires { length (marks mark prefix) ≤ length out.old }
    ensures { Wrote out.old (marks mark prefix) result out.new }
{
    let a = write_short(out, crate::opening_text(mark));
    a + write_short(&mut out[a..], crate::prefix_text(prefix))
}

// Writes what stands in front of the text. Answers its length.
#[tactic(auto, using(crate::proofs::Lengths::lengths))]
fn write_head(out: &mut [u8], f: Frame) -> usize
    requires { length (head_text f) ≤ length out.old }
    ensures { Wrote out.old (head_text f) result out.new }
{
    let a = write_fill(out, f.before as usize, b' ');
    let b = a + write_marks(&mut out[a..], f.mark, f.prefix);
    b + write_fill(&mut out[b..], f.zeros as usize, b'0')
}

// Writes what stands behind the text. Answers its length.
#[tactic(auto, using(crate::proofs::Lengths::tails), unfolding(crate::specs::Frame::tail_text, crate::specs::Frame::spaces))]
fn write_tail(out: &mut [u8], f: Frame) -> usize
    requires { length (tail_text f) ≤ length out.old }
    ensures { Wrote out.old (tail_text f) result out.new }
{
    let a = write_short(out, crate::closing_text(f.mark));
    a + write_fill(&mut out[a..], f.after as usize, b' ')
}

// Writes a frame around the place of n bytes. Answers that place.
fn write_frame(out: &mut [u8], f: Frame, n: usize) -> usize
    requires { (length (head_text f) + length (tail_text f)) + n ≤ length out.old }
    ensures { (result ≡ length (head_text f)) × (out.new ≡ around out.old f n) }
{
    let at = write_head(out, f);
    let end = at + n;
    write_tail(&mut out[end..], f);
    at
}

// Whether a text of n has room together with what a frame adds to it. The sum is not formed, so that n may be any number.
fn has_room(added: u64, n: u64, room: u64) -> bool
    ensures { result ≡ leb (added + n) room }
{
    n <= room && added <= room - n
}

// Writes what brings a text of n to the width around its place, where there is room for all of it; else writes nothing.
// Width, adjust, mark and prefix are no struct: it would be built at each of the three calls of put_framed, and taken apart again by frame_of and its laws.
pub fn put_frame(
    out: &mut [u8],
    width: u32,
    adjust: Adjust,
    mark: Mark,
    prefix: Prefix,
    n: u64,
) -> Framed
    ensures { FramePut out.old (frame_of width adjust mark prefix n) n result out.new }
{
    let f = crate::frame_for(width, adjust, mark, prefix, n);
    let added = crate::frame_len(f);
    let at = if has_room(added, n, out.len() as u64) {
        Some(write_frame(out, f, n as usize))
    } else {
        None
    };
    Framed { added, at }
}

// Writes a text of n bytes in its frame where there is room for it: `write` is called with the text's place. Answers the length.
// Writers of columns each say `result < 2 ^ 42` of it again: a number has no field that could.
// Without width and mark the frame is put by a call with constants for all but the prefix, which is what the compiler leaves of it.
#[tactic(auto, using(crate::proofs::Around::framing))]
pub fn put_framed<F: FnOnce(&mut [u8]) -> usize>(
    out: &mut [u8],
    width: u32,
    adjust: Adjust,
    mark: Mark,
    prefix: Prefix,
    n: u64,
    write: F,
) -> u64
    requires below { n < 2 ^ 41 }
    requires may_write { (place : _) → n ≤ length place.now → F.pre write place }
    ensures text { (body : List ℕ) → n ≡ length body → ((d y : List ℕ) (r : ℕ) → FnOnceReturnsAtMut F.FnOnce write d r y → Wrote d body r y)
        → Put out.old (padded width adjust mark prefix body) result out.new }
    ensures bounded { result < 2 ^ 42 }
{
    let framed = if crate::is_bare(width, mark) {
        put_frame(out, 0, Adjust::Right, Mark::NoMark, prefix, n)
    } else {
        put_frame(out, width, adjust, mark, prefix, n)
    };
    if let Some(at) = framed.at {
        write(&mut out[at..]);
    }
    framed.added + n
}
