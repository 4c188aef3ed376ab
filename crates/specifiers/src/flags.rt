// The flags of an element, in any number and order.
// Ported in part from format_string.rs of datafusion-spark 55.2.0 (Apache-2.0; see NOTICE): the flags of take_conversion_specifier.
ghost use Rattle.std.specs.Prelude.{◌≡◌, List, [], ℕ};
ghost use Rattle.specifiers.specs.Flags.{flags_of, flags_at};
ghost use Rattle.specifiers.specs.Steps.{step_of};

use refusals::{Parsed, Refusal};

// The flags that were read. The original's names are alt_form, zero_pad, left_adj, space_sign, force_sign, grouping_separator and
// negative_in_parentheses; a definition can name a field plainly only where it is one word.
#[derive(Clone, Copy, PartialEq, Eq)]
pub struct Flags {
    pub alternate: bool,
    pub zero: bool,
    pub left: bool,
    pub space: bool,
    pub plus: bool,
    pub grouping: bool,
    pub parentheses: bool,
}

// One flag more: b behind any flags that give f. None where b is no flag.
#[tactic(auto, using(crate::proofs::Runs::has_more), unfolding(writing::specs::Text::has))]
fn with_flag(f: Flags, b: u8) -> Result<Option<Flags>, Refusal>
    ensures { (before : List ℕ) → f ≡ flags_of before → result ≡ step_of before b }
{
    let mut g = f;
    match b {
        b'#' => g.alternate = true,
        b'0' if f.left => return Err(Refusal::ZeroAfterMinus),
        b'0' => g.zero = true,
        b'-' => g.left = true,
        b' ' if f.plus => return Err(Refusal::PlusAndSpace),
        b' ' => g.space = true,
        b'+' if f.space => return Err(Refusal::PlusAndSpace),
        b'+' => g.plus = true,
        b',' => g.grouping = true,
        b'(' => g.parentheses = true,
        _ => return Ok(None),
    }
    Ok(Some(g))
}

#[tactic(auto, unfolding(writing::specs::Text::has))]
pub(crate) fn no_flags() -> Flags
    ensures { result ≡ flags_of [] }
{
    Flags {
        alternate: false,
        zero: false,
        left: false,
        space: false,
        plus: false,
        grouping: false,
        parentheses: false,
    }
}

// The flags from the place at on. Not by a range: a row with flags takes 0.8 to 3.1 % more instructions.
pub(crate) fn take_flags(fmt: &[u8], at: usize) -> Parsed<Flags>
    ensures { result ≡ flags_at fmt.now at }
{
    let mut i = at;
    let mut flags = no_flags();
    while i < fmt.len() {
        let Some(more) = with_flag(flags, fmt[i])? else {
            break;
        };
        flags = more;
        i += 1;
    }
    Ok((flags, i))
}
