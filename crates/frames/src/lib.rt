// What stands around the text of a value: marks, prefixes, and the frame that brings a text to a width, with its length.
// Ported in part from format_string.rs of datafusion-spark 55.2.0 (Apache-2.0; see NOTICE): the padding of format_signed,
// format_unsigned, format_str and format_hex_float.
#![tactic(auto)]

pub mod layout;

ghost use Rattle.std.specs.Prelude.{◌≡◌, ◌+◌, ◌^◌, ◌≤◌, ◌<◌, length};
ghost use Rattle.frames.specs.Frame.{opening, closing, prefix_text, head_text, tail_text, spare, frame_of};
ghost use Rattle.frames.specs.Bare.{is_bare};

// The mark of a number. None is a variant, no Option: each is asked for its texts, and none whether it is there.
#[derive(Clone, Copy)]
pub enum Mark {
    NoMark,
    Plus,
    Space,
    Minus,
    Brackets,
}

// What `#` puts in front of digits; none is a variant, as among marks.
#[derive(Clone, Copy)]
pub enum Prefix {
    NoPrefix,
    Octal,
    HexLower,
    HexUpper,
}

// Where the padding stands: in front, behind, or in front as zeros.
#[derive(Clone, Copy)]
pub enum Adjust {
    Right,
    Left,
    Zeros,
}

// Spaces in front, mark, prefix, zeros; spaces behind text and closing mark.
#[derive(Clone, Copy)]
pub struct Frame {
    pub before: u32,
    pub mark: Mark,
    pub prefix: Prefix,
    pub zeros: u32,
    pub after: u32,
}

// What a mark puts in front of the digits. Two tables of marks, as the definitions: each half of a frame asks for its own.
fn opening_text(mark: Mark) -> &'static [u8]
    ensures { result.now ≡ opening mark }
{
    match mark {
        Mark::NoMark => b"",
        Mark::Plus => b"+",
        Mark::Space => b" ",
        Mark::Minus => b"-",
        Mark::Brackets => b"(",
    }
}

// What a mark puts behind the digits.
fn closing_text(mark: Mark) -> &'static [u8]
    ensures { result.now ≡ closing mark }
{
    match mark {
        Mark::Brackets => b")",
        _ => b"",
    }
}

// What a prefix puts in front of zeros and digits.
fn prefix_text(prefix: Prefix) -> &'static [u8]
    ensures { result.now ≡ prefix_text prefix }
{
    match prefix {
        Prefix::NoPrefix => b"",
        Prefix::Octal => b"0",
        Prefix::HexLower => b"0x",
        Prefix::HexUpper => b"0X",
    }
}

// How many bytes mark and prefix have, the closing mark too.
fn all_marks_len(mark: Mark, prefix: Prefix) -> u64
    ensures { (result ≡ length (opening mark) + length (prefix_text prefix) + length (closing mark)) × (result ≤ 6) }
{
    (opening_text(mark).len() + prefix_text(prefix).len() + closing_text(mark).len()) as u64
}

// Whether there is neither a width nor a mark.
pub fn is_bare(width: u32, mark: Mark) -> bool
    ensures { result ≡ is_bare width mark }
{
    width == 0 && matches!(mark, Mark::NoMark)
}

// What is left of the width beside mark, prefix and a text of n.
#[tactic(auto, unfolding(crate::specs::Frame::spare))]
fn spare_width(width: u32, mark: Mark, prefix: Prefix, n: u64) -> u32
    ensures { result ≡ spare width mark prefix n }
{
    let left = u64::from(width).saturating_sub(all_marks_len(mark, prefix));
    left.saturating_sub(n) as u32
}

// The frame that brings a text of n to the width; a width of 0 pads nothing.
#[tactic(auto, unfolding(crate::specs::Frame::frame_of))]
fn frame_for(width: u32, adjust: Adjust, mark: Mark, prefix: Prefix, n: u64) -> Frame
    ensures { result ≡ frame_of width adjust mark prefix n }
{
    let rest = spare_width(width, mark, prefix, n);
    let unpadded = Frame {
        before: 0,
        mark,
        prefix,
        zeros: 0,
        after: 0,
    };
    match adjust {
        Adjust::Right => Frame {
            before: rest,
            ..unpadded
        },
        Adjust::Zeros => Frame {
            zeros: rest,
            ..unpadded
        },
        Adjust::Left => Frame {
            after: rest,
            ..unpadded
        },
    }
}

// How many bytes a frame adds to the text within it; nothing is written.
#[tactic(auto, using(crate::proofs::Lengths::lengths))]
fn frame_len(f: Frame) -> u64
    ensures { (result ≡ length (head_text f) + length (tail_text f)) × (result < 2 ^ 41) }
{
    let runs = u64::from(f.before) + u64::from(f.zeros) + u64::from(f.after);
    runs + all_marks_len(f.mark, f.prefix)
}
