// Numbers as little-endian bytes.
#![tactic(auto)]

ghost use Rattle.std.specs.Prelude.{◌≡◌, ◌+◌, ◌*◌, ◌^◌, ◌≤◌, ◌<◌, length};
ghost use Rattle.writing.specs.Laid.{laid};
ghost use Rattle.words.specs.LittleEndian.{word_at, bytes_of, all_bytes};

// The number that N bytes make from a place on.
pub fn word_at<const N: usize>(s: &[u8], at: usize) -> u64
    requires { (N ≤ 8) × (at + N ≤ length s.now) }
    ensures { (result ≡ word_at N s.now at) × (result < 256 ^ N) }
{
    let mut bytes = [0; 8];
    bytes[..N].copy_from_slice(&s[at..at + N]);
    u64::from_le_bytes(bytes)
}

// A number as four bytes.
#[tactic(auto, unfolding(writing::specs::Laid::laid))]
fn write_four(out: &mut [u8], n: u32)
    requires { 4 ≤ length out.old }
    ensures { out.new ≡ laid out.old (bytes_of 4 n) }
{
    out[..4].copy_from_slice(&n.to_le_bytes());
}

// Numbers, four bytes each.
#[tactic(auto, using(writing::proofs::Laid::laid_none), unfolding(crate::specs::LittleEndian::all_bytes))]
pub fn write_fours(out: &mut [u8], numbers: &[u32])
    requires { 4 * length numbers.now ≤ length out.old }
    ensures { out.new ≡ laid out.old (all_bytes numbers.now) }
{
    for (k, &n) in numbers.iter().enumerate() {
        write_four(&mut out[4 * k..], n);
    }
}
