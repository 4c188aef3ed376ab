// The argument that an element takes: by an index, by the running count, or the last one again.
// Ported in part from format_string.rs of datafusion-spark 55.2.0 (Apache-2.0; see NOTICE): the argument indexes of Formatter::parse.
ghost use Rattle.std.specs.Prelude.{◌≡◌};
ghost use Rattle.parsing.specs.Indexes.{is_index, among_kinds, index_at, same_index};

use refusals::Refusal;

// The argument of an element: its index, the place behind it, and the running count.
#[derive(Clone, Copy, PartialEq, Eq)]
pub struct Index {
    pub argument: usize,
    pub next: usize,
    pub count: usize,
}

// Whether an index stands at a place: digits from 1 to 9 onward, and then `$`.
fn is_index(fmt: &[u8], at: usize) -> bool
    ensures { result ≡ is_index fmt.now at }
{
    matches!(fmt.get(at), Some(b'1'..=b'9'))
        && specifiers::is_byte(fmt, specifiers::params::digits_end(fmt, at), b'$')
}

impl Index {
    // This argument, if there are so many kinds.
    fn among(self, kinds: usize) -> Result<Index, Refusal>
        ensures { result ≡ among_kinds kinds self.argument self.next self.count }
    {
        if kinds < self.argument {
            return Err(Refusal::NoSuchArgument);
        }
        Ok(self)
    }
}

// The argument of an element that names one by an index, or takes the next in the running count. The count is the cursor's and the number of kinds is the
// row's: a struct of both would be made for two calls and say no more.
#[tactic(auto, using(crate::proofs::Named::index_inside), unfolding(crate::specs::Indexes::index_at))]
pub(crate) fn take_index(
    fmt: &[u8],
    at: usize,
    count: usize,
    kinds: usize,
) -> Result<Index, Refusal>
    ensures { result ≡ index_at fmt.now kinds at count }
{
    if specifiers::is_byte(fmt, at, b'$') {
        return Err(Refusal::NoIndex);
    }
    if is_index(fmt, at) {
        let (value, end) = specifiers::params::take_number(fmt, at)?;
        let index = Index {
            argument: value as usize,
            next: end + 1,
            count,
        };
        return index.among(kinds);
    }
    // The sum of the next line is formed only where it is at most the count of kinds.
    if kinds <= count {
        return Err(Refusal::NoSuchArgument);
    }
    Ok(Index {
        argument: count + 1,
        next: at,
        count: count + 1,
    })
}

// The argument of an element behind `%<`: the last one named without `<`, 0 where there is none, as a cursor has it.
pub(crate) fn same_index(
    last: usize,
    next: usize,
    count: usize,
    kinds: usize,
) -> Result<Index, Refusal>
    ensures { result ≡ same_index kinds last next count }
{
    if last == 0 {
        return Err(Refusal::NoElementBefore);
    }
    let index = Index {
        argument: last,
        next,
        count,
    };
    index.among(kinds)
}
