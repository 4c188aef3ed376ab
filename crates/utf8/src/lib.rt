// UTF-8: one test of well-formedness, for formats and for the texts of a row.
#![tactic(auto)]

pub mod scalars;

ghost use Rattle.std.specs.Prelude.{◌≡◌, ◌≤◌, ◌<◌, max};
ghost use Rattle.std.specs.List.{fold};
ghost use Rattle.utf8.specs.Utf8.{lead_of, well_formed};

// What follows: how many bytes, and the range of the next one.
#[derive(Clone, Copy)]
pub struct Follow {
    pub need: u8,
    pub low: u8,
    pub high: u8,
}

impl Follow {
    fn new(need: u8, low: u8, high: u8) -> Follow
        ensures { result ≡ record { need = need; low = low; high = high } }
    {
        Follow { need, low, high }
    }
}

// The row of table 3-7 that a first byte stands in. Three functions: one match of all rows is compiled to a jump before ASCII is asked for.
#[tactic(auto, unfolding(crate::specs::Utf8::lead_of))]
fn lead_of(b: u8) -> Option<Follow>
    ensures { result ≡ lead_of b }
{
    match b {
        0x00..=0x7f => Some(Follow::new(0, 0x80, 0xbf)),
        0x80..=0xc1 => None,
        0xc2..=0xdf => Some(Follow::new(1, 0x80, 0xbf)),
        0xe0..=0xef => lead_of_three(b),
        _ => lead_of_four(b),
    }
}

// .. of three bytes
#[tactic(auto, unfolding(crate::specs::Utf8::lead_of))]
fn lead_of_three(b: u8) -> Option<Follow>
    requires { (0xe0 ≤ b) × (b < 0xf0) }
    ensures { result ≡ lead_of b }
{
    match b {
        0xe0 => Some(Follow::new(2, 0xa0, 0xbf)),
        0xed => Some(Follow::new(2, 0x80, 0x9f)),
        _ => Some(Follow::new(2, 0x80, 0xbf)),
    }
}

// .. of four bytes
#[tactic(auto, unfolding(crate::specs::Utf8::lead_of))]
fn lead_of_four(b: u8) -> Option<Follow>
    requires { 0xf0 ≤ b }
    ensures { result ≡ lead_of b }
{
    match b {
        0xf0 => Some(Follow::new(3, 0x90, 0xbf)),
        0xf1..=0xf3 => Some(Follow::new(3, 0x80, 0xbf)),
        0xf4 => Some(Follow::new(3, 0x80, 0x8f)),
        _ => None,
    }
}

// Whether s is well-formed UTF-8, byte by byte.
#[tactic(auto, using(crate::proofs::Utf8::read_none, crate::proofs::Utf8::at_end, crate::proofs::Utf8::at_no_lead))]
fn follows_table(s: &[u8]) -> bool
    ensures { result ≡ well_formed s.now }
{
    let mut next = Follow::new(0, 0x80, 0xbf);
    for &b in s {
        if next.need == 0 {
            let Some(lead) = lead_of(b) else { return false };
            next = lead;
        } else if (next.low..=next.high).contains(&b) {
            next = Follow::new(next.need - 1, 0x80, 0xbf);
        } else {
            return false;
        }
    }
    next.need == 0
}

// The largest byte, 0 of none: no way out, so that it can be compiled to operations on blocks. Not is_ascii, whose call takes 3 % of a short row.
fn largest(s: &[u8]) -> u8
    ensures { result ≡ fold max 0 s.now }
{
    s.iter().fold(0, |top, b| (*b).max(top))
}

// Whether s is well-formed UTF-8. Most texts are ASCII, which one quick pass shows.
#[tactic(auto, using(crate::proofs::Laws::ascii_below))]
pub fn is_well_formed(s: &[u8]) -> bool
    ensures { result ≡ well_formed s.now }
{
    largest(s) < 0x80 || follows_table(s)
}
