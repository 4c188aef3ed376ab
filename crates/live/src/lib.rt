// A list of gates that join and leave, all under one format: for every piece the largest printed length among the gates present.
// Memory is lent by the caller: the number of gates, their numbers, the largest length of each piece, and the lengths of each gate's pieces, of which a
// leave works out the largest again without a row.
#![tactic(auto)]

ghost use Rattle.std.specs.Prelude.{◌≡◌, ◌≢◌, ◌≤◌, ℕ, ◌<◌, [], min, max, get_or, slice_index, take};
ghost use Rattle.gates.specs.Gates.{joins, changed_of};
ghost use Rattle.live.specs.Lists.{Represents};
ghost use Rattle.live.specs.Steps.{present, place_of, length_in, column_largest, lowered};
ghost use Rattle.live.specs.Promises.{Emptied, Changes, Leaves, Lengths};

use gates::Changed;
use refusals::{MOST_GATES, MOST_PIECES, Refusal, Stop};

// How many gates are present, their numbers, the largest length of each piece, and the length of each gate's pieces. No invariant: C lends any memory, and
// each call says what it does where the memory represents a list. So the fields are public: a caller may make one of any numbers.
#[repr(C)]
#[derive(Clone, Copy)]
pub struct GateList {
    pub count: u32,
    pub numbers: [u32; MOST_GATES],
    pub longest: [u32; MOST_PIECES],
    pub lengths: [[u32; MOST_PIECES]; MOST_GATES],
}

// panel.h lends as many words.
const _: () = prove!(size_of::<GateList>() == 4 * 66177);

// The length of a piece, of which end and end before are known in 32 bits. Here and below pieces go by number, below 512: of each there are an end, lengths
// and a largest one.
fn piece_len(ends: &[u32; MOST_PIECES], pieces: usize, k: usize) -> u32
    requires { k < MOST_PIECES }
    ensures { result ≡ length_in ends.now pieces k }
{
    if k >= pieces {
        0
    } else if k == 0 {
        ends[k]
    } else {
        ends[k].wrapping_sub(ends[k - 1])
    }
}

// Writes the lengths of a gate's pieces, and raises each largest length to them.
fn enter_lengths(
    longest: &mut [u32; MOST_PIECES],
    own: &mut [u32; MOST_PIECES],
    ends: &[u32; MOST_PIECES],
    pieces: usize,
)
    ensures written { (k : ℕ) → k < MOST_PIECES → slice_index own.new k ≡ length_in ends.now pieces k }
    ensures raised { (k : ℕ) → k < MOST_PIECES → slice_index longest.new k ≡ max (slice_index longest.old k) (length_in ends.now pieces k) }
{
    for k in 0..MOST_PIECES {
        let len = piece_len(ends, pieces, k);
        own[k] = len;
        longest[k] = longest[k].max(len);
    }
}

// The largest k-th length of some gates, but no more than top: none is looked at behind one that reaches it.
#[tactic(auto, using(crate::proofs::Leaving::column_next, crate::proofs::Leaving::column_end, std::proofs::lemmas::Grind::common_steps))]
fn column_largest(rows: &[[u32; MOST_PIECES]], k: usize, top: u32) -> u32
    requires { k < MOST_PIECES }
    ensures { result ≡ min top (column_largest rows.now k) }
{
    let mut most = 0;
    for row in rows {
        if row[k] >= top {
            return top;
        }
        most = most.max(row[k]);
    }
    most
}

// Lowers the k-th largest length where a gate of the length own leaves the others.
#[tactic(auto, unfolding(crate::specs::Steps::lowered))]
fn lower(longest: &mut [u32; MOST_PIECES], others: &[[u32; MOST_PIECES]], k: usize, own: u32)
    requires { k < MOST_PIECES }
    ensures lowered { slice_index longest.new k ≡ lowered own (slice_index longest.old k) (column_largest others.now k) }
    ensures others { (j : ℕ) → j ≢ k → slice_index longest.new j ≡ slice_index longest.old j }
{
    if own > 0 && own >= longest[k] {
        longest[k] = column_largest(others, k, own);
    }
}

// Puts another length in the place of a gate's k-th. Answers the one that stood there.
fn replace_length(own: &mut [u32; MOST_PIECES], k: usize, len: u32) -> u32
    requires { k < MOST_PIECES }
    ensures was { result ≡ slice_index own.old k }
    ensures stored { slice_index own.new k ≡ len }
    ensures others { (j : ℕ) → j ≢ k → slice_index own.new j ≡ slice_index own.old j }
{
    let was = own[k];
    own[k] = len;
    was
}

// Takes out the lengths of the gate at a place: those of the last gate stand there then, and the largest lengths are lowered to those of the gates that stay,
// which are the rows before the last. One pass does both. A swap of two rows is another pass, through a third row, and asks C's library for `memmove`.
fn take_out(
    longest: &mut [u32; MOST_PIECES],
    lengths: &mut [[u32; MOST_PIECES]; MOST_GATES],
    place: usize,
    last: usize,
)
    requires { (place ≤ last) × (last < MOST_GATES) }
    ensures kept { (i : ℕ) → i ≢ place → get_or lengths.new i [] ≡ get_or lengths.old i [] }
    ensures moved { (k : ℕ) → k < MOST_PIECES → slice_index (get_or lengths.new place []) k ≡ slice_index (get_or lengths.old last []) k }
    ensures lower { (k : ℕ) → k < MOST_PIECES → slice_index longest.new k
        ≡ lowered (slice_index (get_or lengths.old place []) k) (slice_index longest.old k) (column_largest (take last lengths.new) k) }
{
    for k in 0..MOST_PIECES {
        let moved = lengths[last][k];
        let own = replace_length(&mut lengths[place], k, moved);
        lower(longest, &lengths[..last], k, own);
    }
}

// A call's answer, for C.
fn changed_of(answer: Result<(), Stop>) -> Changed
    ensures { result ≡ changed_of answer }
{
    match answer {
        Ok(()) => Changed {
            number: 0,
            place: 0,
        },
        Err(stop) => Changed {
            number: stop.refusal.number() as u64,
            place: stop.place as u64,
        },
    }
}

impl GateList {
    // A list of no gates.
    pub fn new() -> GateList
        ensures { Emptied Represents result }
    {
        GateList {
            count: 0,
            numbers: [0; MOST_GATES],
            longest: [0; MOST_PIECES],
            lengths: [[0; MOST_PIECES]; MOST_GATES],
        }
    }

    // How many gates are present; of memory that no calls left, at most 128.
    fn present(&self) -> usize
        ensures { result ≡ present self.now }
    {
        (self.count as usize).min(MOST_GATES)
    }

    // Where the gate stands.
    fn place_of(&self, gate: u32) -> Option<usize>
        ensures { result ≡ place_of self.now gate }
    {
        self.numbers[..self.present()]
            .iter()
            .position(|&number| number == gate)
    }

    // Empties the list: it costs the clearing of the largest lengths. What other words hold does not matter.
    #[tactic(auto, using(crate::proofs::Joining::emptied))]
    pub fn empty(&mut self)
        ensures { Emptied Represents self.new }
    {
        self.count = 0;
        self.longest.fill(0);
    }

    // A gate joins, or the list stays as it is and the answer is why.
    #[tactic(auto, using(crate::proofs::Changing::joining))]
    fn try_join(&mut self, gate: u32, fmt: &[u8], row: &[u8]) -> Result<(), Stop>
        ensures { Changes Represents fmt.now (joins gate row.now) self.old (changed_of result) self.new }
    {
        if self.place_of(gate).is_some() {
            return Err(Refusal::GatePresent.at(0));
        }
        let count = self.present();
        if count >= MOST_GATES {
            return Err(Refusal::ListFull.at(0));
        }
        let mut ends = [0u32; MOST_PIECES];
        let found = printing::stage(fmt, row, &mut [], &mut ends)?;
        enter_lengths(
            &mut self.longest,
            &mut self.lengths[count],
            &ends,
            found.pieces as usize,
        );
        self.numbers[count] = gate;
        self.count = (count + 1) as u32;
        Ok(())
    }

    // A gate joins, with its row under the format of the list. Costs what measuring does, a pass over the numbers of the gates present, and one over 512
    // lengths.
    pub fn join(&mut self, gate: u32, fmt: &[u8], row: &[u8]) -> Changed
        ensures { Changes Represents fmt.now (joins gate row.now) self.old result self.new }
    {
        changed_of(self.try_join(gate, fmt, row))
    }

    // A gate leaves, or the list stays as it is and the answer is why.
    #[tactic(auto, using(crate::proofs::Changing::is_absent))]
    fn try_leave(&mut self, gate: u32) -> Result<(), Stop>
        ensures { Leaves Represents gate self.old (changed_of result) self.new }
    {
        let Some(place) = self.place_of(gate) else {
            return Err(Refusal::GateAbsent.at(0));
        };
        let last = self.present() - 1;
        take_out(&mut self.longest, &mut self.lengths, place, last);
        self.numbers[place] = self.numbers[last];
        self.count = last as u32;
        Ok(())
    }

    // A gate leaves. Nothing is measured: it costs a pass over the numbers and one over 512 lengths; and of each piece at which no gate is longer, one
    // over this piece's lengths up to the first as long, so in all at most one pass over the lengths of the gates present.
    pub fn leave(&mut self, gate: u32) -> Changed
        ensures { Leaves Represents gate self.old result self.new }
    {
        changed_of(self.try_leave(gate))
    }

    // The 512 lengths: a copy. By the array's own `map` it takes thirty times the instructions.
    pub fn lengths(&self, out: &mut [u64; MOST_PIECES])
        ensures { Lengths Represents self.now out.new }
    {
        for k in 0..MOST_PIECES {
            out[k] = u64::from(self.longest[k]);
        }
    }
}
