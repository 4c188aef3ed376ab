// Decimal digits with commas.
// Ported in part from format_string.rs of datafusion-spark 55.2.0 (Apache-2.0; see NOTICE): insert_thousands_separator.
ghost use Rattle.std.specs.Prelude.{◌≡◌, ◌≤◌, length};
ghost use Rattle.writing.specs.Writers.{Wrote};
ghost use Rattle.numerals.specs.Digits.{decimal};
ghost use Rattle.numerals.specs.Grouping.{grouped};

// The length of x in decimal with commas, from its number of digits.
#[tactic(auto, using(crate::proofs::Commas::grouped_lengths))]
pub fn grouped_len(x: u64) -> usize
    ensures { result ≡ length (grouped (decimal x)) }
{
    let n = crate::decimal_len(x);
    n + (n - 1) / 3
}

// Writes x in decimal with commas, n bytes in all. Answers n.
pub fn write_grouped(out: &mut [u8], x: u64, n: usize) -> usize
    requires { (n ≡ length (grouped (decimal x))) × (n ≤ length out.old) }
    ensures { Wrote out.old (grouped (decimal x)) result out.new }
{
    let mut v = x;
    let mut run = 0u8;
    for i in (0..n).rev() {
        if run == 3 {
            out[i] = b',';
            run = 0;
        } else {
            out[i] = crate::digit_letter(v % 10, false);
            v /= 10;
            run += 1;
        }
    }
    n
}
