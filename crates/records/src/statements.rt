// What a record of a list of vectors states that a call answers, compared with an answer. crates/vectors/README.md has the layout.
ghost use Rattle.std.specs.Prelude.{◌≡◌, ◌+◌, ◌*◌, ◌≤◌, length};
ghost use Rattle.records.specs.Comparing.{same_list, fours, states_accepted, states_refused, states_whole};
ghost use Rattle.records.specs.Stated.{TextLies};

// What a record says that a call answers: checking accepts, with pieces and largest argument index; printing accepts, with the text between two places
// and behind it so many ends; or a refusal, by a number and not by its name, since a list may state one that is none.
#[derive(Clone, Copy, PartialEq, Eq)]
pub enum Stated {
    Accepts {
        pieces: usize,
        largest: usize,
    },
    Prints {
        text: usize,
        end: usize,
        pieces: usize,
    },
    Refuses {
        number: u8,
        place: usize,
    },
}

// Whether a record states that checking accepts with these.
pub fn is_accepted(stated: Stated, pieces: usize, largest: usize) -> bool
    ensures { result ≡ states_accepted stated pieces largest }
{
    stated == Stated::Accepts { pieces, largest }
}

// Whether a record states a refusal with this number and place.
pub fn is_refused(stated: Stated, number: u8, place: usize) -> bool
    ensures { result ≡ states_refused stated number place }
{
    stated == Stated::Refuses { number, place }
}

// Whether ends are as many numbers of four bytes that stand in a list from a place on: numbers beside bytes, which no equality of the library compares.
#[tactic(auto, using(crate::proofs::Comparing::fours_next, crate::proofs::Comparing::fours_not, crate::proofs::Comparing::fours_none))]
fn is_same_ends(ends: &[u32], list: &[u8], at: usize) -> bool
    requires { at + 4 * length ends.now ≤ length list.now }
    ensures { result ≡ same_list ends.now (fours list.now at (length ends.now)) }
{
    for (i, &end) in ends.iter().enumerate() {
        if u64::from(end) != words::word_at::<4>(list, at + 4 * i) {
            return false;
        }
    }
    true
}

// Whether a record states that printing accepts and leaves this text and these ends.
pub fn is_printed(list: &[u8], stated: Stated, text: &[u8], ends: &[u32]) -> bool
    requires { TextLies (length list.now) stated }
    ensures { result ≡ states_whole list.now stated text.now ends.now }
{
    let Stated::Prints {
        text: from,
        end,
        pieces,
    } = stated
    else {
        return false;
    };
    ends.len() == pieces && text == &list[from..end] && is_same_ends(ends, list, end + 2)
}
