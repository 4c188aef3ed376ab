// 01's table, "What stops a call": each refusal with the table's words, in its order, with its number, and those that later requests add; and the
// limits that they name.
#![tactic(auto)]

ghost use Rattle.std.specs.Prelude.{◌≡◌};
ghost use Rattle.refusals.specs.Numbers.{refusal_number, stop};

// Why a call is refused.
#[derive(Clone, Copy, Debug, PartialEq, Eq)]
pub enum Refusal {
    // format over 4,096 bytes
    LongFormat = 1,
    // format not UTF-8
    MalformedFormat = 2,
    // over 64 kinds, or a kind not 1 to 8 (checking)
    BadKinds = 3,
    // row breaks its layout
    BrokenRow = 14,
    // `%<` before any element
    NoElementBefore = 4,
    // `%$`
    NoIndex = 5,
    // number above 2,147,483,647
    LargeNumber = 6,
    // argument index above the count of kinds
    NoSuchArgument = 7,
    // `0` after `-`
    ZeroAfterMinus = 8,
    // both `+` and space
    PlusAndSpace = 9,
    // no such letter, or end
    NoLetter = 10,
    // no such time letter, or end
    NoTimeLetter = 11,
    // letter does not fit the kind
    UnfitLetter = 12,
    // a 513th piece begins
    ManyPieces = 13,
    // letter not printed for this kind
    NotPrinted = 15,
    // %c of no Unicode scalar value
    NoScalar = 16,
    // text longer than output or than 4,294,967,295, or more pieces than ends (printing only)
    NoRoom = 17,
    // 02, E1: a negative timestamp that is not a whole second, under t or T
    NoWholeSecond = 18,
    // 02, E4: a join of a gate present
    GatePresent = 19,
    // 02, E4: a leave of a gate absent
    GateAbsent = 20,
    // 02, E4: a join when 128 are present
    ListFull = 21,
}

impl Refusal {
    // The number that 01 and later requests give it.
    pub fn number(self) -> u8
        ensures { result ≡ refusal_number self }
    {
        self as u8
    }

    // It, at a place.
    pub fn at(self, place: usize) -> Stop
        ensures { result ≡ stop self place }
    {
        Stop {
            refusal: self,
            place,
        }
    }
}

// Where a call is stopped, and why. The place is an offset in the format, 0 where the refusal has none.
#[derive(Clone, Copy, Debug, PartialEq, Eq)]
pub struct Stop {
    pub refusal: Refusal,
    pub place: usize,
}

// What a step of reading answers: what stands there and the place behind it, or why it is refused.
pub type Parsed<T> = Result<(T, usize), Refusal>;

// The most bytes of a format, kinds of a check, and pieces.
pub const MOST_FORMAT: usize = 4096;

pub const MOST_KINDS: usize = 64;

pub const MOST_PIECES: usize = 512;
// The largest number that a format may write, and the largest end.
pub const LARGEST_NUMBER: u32 = 2147483647;

pub const LARGEST_END: u64 = 4294967295;
// The most values of a row, and the most bytes of its text.
pub const MOST_VALUES: u64 = 64;

pub const MOST_TEXT: u64 = 32768;
// The most gates of a list.
pub const MOST_GATES: usize = 128;
