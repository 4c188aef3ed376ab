// Whole numbers as text: digits in a base.
// Ported in part from format_string.rs of datafusion-spark 55.2.0 (Apache-2.0; see NOTICE): the digit writing of format_unsigned and
// format_signed.
#![tactic(auto)]

pub mod grouping;
pub mod integers;

ghost use Rattle.std.specs.Prelude.{◌≡◌, ◌^◌, ◌<◌, ◌≤◌, length};
ghost use Rattle.writing.specs.Writers.{Wrote};
ghost use Rattle.numerals.specs.Digits.{digits_in, places, letter_of, letters_of, decimal};
ghost use Rattle.numerals.specs.Bases.{base_of};

// The base in which a number is written.
#[derive(Clone, Copy, PartialEq, Eq)]
pub enum Radix {
    Decimal,
    Octal,
    Hexadecimal,
}

// The letter of a digit below 16: small, or capital where upper is set. A sum, so that there is no branch: n / 10 is 1 from ten on and 0 below, and gap is how
// many other characters stand between 9 and a, or 9 and A. The digit is added last, since what stands before it then has two values only.
fn digit_letter(digit: u64, upper: bool) -> u8
    requires { digit < 16 }
    ensures { result ≡ letter_of upper digit }
{
    let n = digit as u8;
    let gap = 39 - 32 * (upper as u8);
    b'0' + n / 10 * gap + n
}

// How many decimal digits a number of at most four has: one for 0.
fn short_len(x: u64) -> usize
    requires { x < 10000 }
    ensures { result ≡ places 10 x }
{
    match x {
        0..=9 => 1,
        10..=99 => 2,
        100..=999 => 3,
        _ => 4,
    }
}

// How many decimal digits x has, four in a turn.
#[tactic(auto, using(crate::proofs::Digits::twenty_places, crate::proofs::Digits::places_four))]
pub fn decimal_len(x: u64) -> usize
    ensures { result ≡ places 10 x }
{
    let mut v = x;
    let mut n = 0;
    while 10000 <= v {
        v /= 10000;
        n += 4;
    }
    n + short_len(v)
}

// How many digits x has in base 2 ^ shift, from its highest set bit: one for 0. Octal is shift 3, hexadecimal shift 4.
fn power_len(x: u64, shift: u32) -> u32
    requires { (1 ≤ shift) × (shift ≤ 63) }
    ensures { result ≡ places (2 ^ shift) x }
{
    if x == 0 {
        return 1;
    }
    let bits = 64 - u64::leading_zeros(x);
    (bits + shift - 1) / shift
}

// How many digits x has in a base.
pub fn digits_len(x: u64, radix: Radix) -> usize
    ensures { result ≡ places (base_of radix) x }
{
    match radix {
        Radix::Decimal => decimal_len(x),
        Radix::Octal => power_len(x, 3) as usize,
        Radix::Hexadecimal => power_len(x, 4) as usize,
    }
}

// Writes the n lowest digits of x in the base, leading zeros included. Answers n. A turn has no branch but the loop's own test, and the compiler takes several
// turns at a time.
fn write_places(out: &mut [u8], x: u64, base: u64, n: usize, upper: bool) -> usize
    requires { (1 ≤ base) × (base ≤ 16) × (n ≤ length out.old) }
    ensures { Wrote out.old (letters_of upper (digits_in base n x)) result out.new }
{
    let mut v = x;
    for i in (0..n).rev() {
        out[i] = digit_letter(v % base, upper);
        v /= base;
    }
    n
}

// The same. At each call the base is a number that stands there, so that it is compiled without division; a const parameter would stand at the same place.
pub fn write_digits(out: &mut [u8], x: u64, radix: Radix, n: usize, upper: bool) -> usize
    requires { n ≤ length out.old }
    ensures { Wrote out.old (letters_of upper (digits_in (base_of radix) n x)) result out.new }
{
    match radix {
        Radix::Decimal => write_places(out, x, 10, n, upper),
        Radix::Octal => write_places(out, x, 8, n, upper),
        Radix::Hexadecimal => write_places(out, x, 16, n, upper),
    }
}

// Writes the decimal digits of x. Answers how many.
#[tactic(auto, using(crate::proofs::Digits::numeral_in, crate::proofs::Digits::twenty_places, crate::proofs::Digits::decimals))]
pub fn write_decimal(out: &mut [u8], x: u64) -> usize
    requires { length (decimal x) ≤ length out.old }
    ensures { Wrote out.old (decimal x) result out.new × (result ≤ 20) }
{
    write_digits(out, x, Radix::Decimal, decimal_len(x), false)
}
