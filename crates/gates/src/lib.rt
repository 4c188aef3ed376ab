// What a call on a list of gates answers. The definitions of it are in specs/; the functions that meet them are in the crate live.
#![tactic(auto)]

// number is 0 where the list was changed; else it is the refusal's, with its place. For C, which has no Result.
#[repr(C)]
#[derive(Clone, Copy, PartialEq, Eq)]
pub struct Changed {
    pub number: u64,
    pub place: u64,
}
