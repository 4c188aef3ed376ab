// One pass over the pieces of a format: it finds every refusal, adds up the text's length, and writes text and ends as far as they have room.
// Ported from format_string.rs of datafusion-spark 55.2.0 (Apache-2.0; see NOTICE): the loops of Formatter::parse and Formatter::format.
ghost use Rattle.std.specs.Prelude.{◌≡◌};
ghost use Rattle.printing.specs.Tallies.{laid_texts, laid_ends};
ghost use Rattle.printing.specs.Passes.{Walkable, Walk, walk_texts};

use crate::tallies::Tally;
use parsing::Ended;
use refusals::Refusal;

// What a pass comes to: where reading ended, what was added up, the pieces and the largest argument index.
#[derive(Clone, Copy, PartialEq, Eq)]
pub struct Walked {
    pub end: Ended,
    pub tally: Tally,
    pub pieces: usize,
    pub largest: usize,
}

// A pass over the pieces. Where it prints, text and ends are written on the way as far as they have room. A flag and no closure:
// the pass is compiled once for both (docs/DECISIONS.md, 34), and a closure that writes text and ends would have to be told of in each of its promises.
pub(crate) fn walk(
    fmt: &[u8],
    row: &[u8],
    kinds: &[u8],
    prints: bool,
    out: &mut [u8],
    ends: &mut [u32],
) -> Walked
    requires { Walkable prints fmt.now row.now kinds.now }
    ensures walk { Walk fmt.now row.now kinds.now prints result }
    ensures out_after { out.new ≡ laid_texts (walk_texts prints fmt.now row.now kinds.now) out.old }
    ensures ends_after { ends.new ≡ laid_ends (walk_texts prints fmt.now row.now kinds.now) ends.old }
{
    let mut c = parsing::first_cursor();
    let mut tally: Tally = Ok(0);
    let mut pieces = 0;
    let mut largest = 0;
    while c.at < fmt.len() {
        let at = c.at;
        if refusals::MOST_PIECES <= pieces {
            return Walked {
                end: Err(Refusal::ManyPieces.at(at)),
                tally,
                pieces,
                largest,
            };
        }
        let (piece, next) = match parsing::next_piece(fmt, kinds, c) {
            Ok(found) => found,
            Err(refusal) => {
                return Walked {
                    end: Err(refusal.at(at)),
                    tally,
                    pieces,
                    largest,
                };
            }
        };
        if prints {
            let size = crate::tallies::put_behind(fmt, row, piece, tally, out);
            tally = crate::tallies::add_size(tally, size, at, pieces, ends);
        }
        largest = largest.max(parsing::argument_of(piece));
        pieces += 1;
        c = next;
    }
    Walked {
        end: Ok(()),
        tally,
        pieces,
        largest,
    }
}
