// What measuring and printing answer. The definitions of it, and of demand 3, are in specs/; the functions that meet them are in the crate printing.
#![tactic(auto)]

use refusals::Stop;

// What a row under a format comes to: the text's length and the number of pieces.
#[derive(Clone, Copy, PartialEq, Eq)]
pub struct Measured {
    pub length: u64,
    pub pieces: u64,
}

// The answer of a call: the text's length and the number of pieces, or a refusal and its place.
pub type Outcome = Result<Measured, Stop>;
