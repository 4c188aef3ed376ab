// Integers in two's complement: sign, magnitude, the bits of a width.
// Ported in part from format_string.rs of datafusion-spark 55.2.0 (Apache-2.0; see NOTICE): the sign and magnitude of format_signed.
ghost use Rattle.std.specs.Prelude.{◌≡◌, ◌%◌, ◌^◌, unsigned_abs};
ghost use Rattle.numerals.specs.Integers.{int_of, is_negative, integer_of, sign_magnitude};

// The sign and the magnitude of an integer.
#[derive(Clone, Copy)]
pub struct SignMagnitude {
    pub negative: bool,
    pub magnitude: u64,
}

// Whether the 64-bit integer with the two's complement bits x is negative. Here and below by the bits, as a row has them, and not by a cast to a signed type.
pub fn is_negative(x: u64) -> bool
    ensures { result ≡ is_negative (int_of 64 x) }
{
    0x8000_0000_0000_0000 <= x
}

// The absolute value of the 64-bit integer with the two's complement bits x. 01: "the magnitude of the least 64-bit integer is kept, though its
// negation wraps".
#[tactic(auto, using(crate::proofs::TwosComplement::magnitude_low, crate::proofs::TwosComplement::magnitude_high))]
pub fn magnitude(x: u64) -> u64
    ensures { result ≡ unsigned_abs (int_of 64 x) }
{
    if x < 0x8000_0000_0000_0000 {
        x
    } else {
        0u64.wrapping_sub(x)
    }
}

// The integer that 64 bits stand for: in two's complement where it is signed, else as they are.
pub fn integer_of(signed: bool, x: u64) -> SignMagnitude
    ensures { result ≡ sign_magnitude (integer_of signed x) }
{
    if signed {
        SignMagnitude {
            negative: is_negative(x),
            magnitude: magnitude(x),
        }
    } else {
        SignMagnitude {
            negative: false,
            magnitude: x,
        }
    }
}

// The low bits of x: of a sign-extended value, its two's complement bits at that width.
pub fn low_bits(x: u64, width: u32) -> u64
    ensures { result ≡ x % 2 ^ width }
{
    if 64 <= width { x } else { x % (1 << width) }
}
