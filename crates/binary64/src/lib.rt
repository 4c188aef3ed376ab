// binary64 values: fields, category, exact scaling, rounding, and the parts of their hexadecimal text.
// Ported in part from format_string.rs of datafusion-spark 55.2.0 (Apache-2.0; see NOTICE): FloatBits::to_parts,
// trim_trailing_0s_hex, and the digits of format_hex_float.
#![tactic(auto)]

ghost use Rattle.std.specs.Prelude.{◌≡◌, ◌^◌, ◌≤◌, ◌<◌};
ghost use Rattle.binary64.specs.Fields.{negative, exponent_field, fraction_field, category_of, scaled_bits};
ghost use Rattle.binary64.specs.Rounding.{nearest_to, kept_digits};
ghost use Rattle.binary64.specs.HexFloat.{normal_form, shortest, carried, rounded, normal_of, subnormal_form, subnormal_of, hex_float_of};

// The fields of a bit pattern: sign, biased exponent, fraction.
#[derive(Clone, Copy)]
pub struct FloatParts {
    pub negative: bool,
    pub exponent: u32,
    pub mantissa: u64,
}

// By its name in the original. It divides and takes rests as the definitions do, which the compiler makes shifts and masks of.
#[tactic(auto, unfolding(crate::specs::Fields::negative, crate::specs::Fields::exponent_field, crate::specs::Fields::fraction_field))]
pub fn to_parts(bits: u64) -> FloatParts
    ensures { (result.negative ≡ negative bits) × (result.exponent ≡ exponent_field bits) × (result.mantissa ≡ fraction_field bits) }
{
    FloatParts {
        negative: 0x8000_0000_0000_0000 <= bits,
        exponent: (bits % 0x8000_0000_0000_0000 / 0x10_0000_0000_0000) as u32,
        mantissa: bits % 0x10_0000_0000_0000,
    }
}

// What bits stand for; the original's standard library tells apart three cases that are finite.
#[derive(Clone, Copy)]
pub enum FpCategory {
    Nan,
    Infinite,
    Finite,
}

#[tactic(auto, unfolding(crate::specs::Fields::category_of))]
pub fn category(bits: u64) -> FpCategory
    ensures { result ≡ category_of bits }
{
    let parts = to_parts(bits);
    match (parts.exponent, parts.mantissa) {
        (2047, 0) => FpCategory::Infinite,
        (2047, _) => FpCategory::Nan,
        _ => FpCategory::Finite,
    }
}

// A positive subnormal value times 2 to the 54th, as an f64 product. It is exact: see proofs/Scaled.antt.
fn scale_up(bits: u64) -> u64
    requires { (1 ≤ bits) × (bits < 2 ^ 52) }
    ensures { result ≡ scaled_bits bits }
{
    (f64::from_bits(bits) * 18014398509481984.0).to_bits()
}

// The whole number nearest to x / unit, at a tie the even one. Not by a match of cmp: it takes 1.6 % of a row with a precision.
#[tactic(auto, unfolding(crate::specs::Rounding::nearest_to))]
fn nearest_to(x: u64, unit: u64) -> u64
    requires { (x < 2 ^ 62) × (0 < unit) }
    ensures { result ≡ nearest_to x unit }
{
    let quotient = x / unit;
    let rest = x % unit;
    if rest * 2 < unit {
        quotient
    } else if unit < rest * 2 {
        quotient + 1
    } else {
        quotient + quotient % 2
    }
}

// The text of a finite value in parts: the digit before the point (1 where leading is set, else 0), the digits behind it as one number
// and their count, zeros behind these, and the exponent, which is exponent less bias.
#[derive(Clone, Copy)]
pub struct HexFloat {
    pub leading: bool,
    pub fraction: u64,
    pub digits: u32,
    pub zeros: u32,
    pub exponent: u32,
    pub bias: u32,
}

// What the text is made of: a fraction of 13 digits, and the biased exponent with its bias.
#[derive(Clone, Copy)]
struct Biased {
    mantissa: u64,
    exponent: u32,
    bias: u32,
    ghost in_fields: { (mantissa < 2 ^ 52) × (exponent < 2048) },
}

// The fraction and the exponent of these bits.
#[tactic(auto, using(crate::proofs::Value::field_bounds))]
fn with_bias(bits: u64, bias: u32) -> Biased
    ensures { (result.mantissa ≡ fraction_field bits) × (result.exponent ≡ exponent_field bits) × (result.bias ≡ bias) }
{
    let FloatParts {
        exponent,
        mantissa,
        ..
    } = to_parts(bits);
    Biased {
        mantissa,
        exponent,
        bias,
    }
}

// How many of the 13 digits of a fraction are left without its trailing zeros: at least one.
#[tactic(auto, using(crate::proofs::Kept::kept_by_zeros))]
fn kept_digits(mantissa: u64) -> u32
    ensures { (result ≡ kept_digits 13 mantissa) × (result ≤ 13) }
{
    13 - (mantissa.trailing_zeros() / 4).min(12)
}

// All 13 digits of a fraction, behind the leading 1.
fn whole(s: Biased) -> HexFloat
    ensures { result ≡ normal_form s.mantissa 13 0 s.exponent s.bias }
{
    HexFloat {
        leading: true,
        fraction: s.mantissa,
        digits: 13,
        zeros: 0,
        exponent: s.exponent,
        bias: s.bias,
    }
}

// A fraction without its trailing zeros.
#[tactic(auto, using(crate::proofs::Powers::sixteens_left), unfolding(crate::specs::HexFloat::shortest))]
fn trimmed(s: Biased) -> HexFloat
    ensures { result ≡ shortest s.mantissa s.exponent s.bias }
{
    let digits = kept_digits(s.mantissa);
    HexFloat {
        fraction: s.mantissa >> (52 - 4 * digits),
        digits,
        ..whole(s)
    }
}

// A fraction that was rounded to the precision; a carry raises the exponent.
#[tactic(auto, using(crate::proofs::Powers::shifted))]
fn carried(precision: u32, fraction: u64, s: Biased) -> HexFloat
    requires { precision < 13 }
    ensures { result ≡ carried precision fraction s.exponent s.bias }
{
    if fraction < 1 << (4 * precision) {
        HexFloat {
            fraction,
            digits: precision,
            ..whole(s)
        }
    } else {
        HexFloat {
            fraction: 0,
            digits: precision,
            exponent: s.exponent + 1,
            ..whole(s)
        }
    }
}

// A fraction rounded to the precision, which is at least 1.
#[tactic(auto, using(crate::proofs::Powers::shifted_left), unfolding(crate::specs::HexFloat::rounded))]
fn with_precision(precision: u32, s: Biased) -> HexFloat
    requires { 1 ≤ precision }
    ensures { result ≡ rounded precision s.mantissa s.exponent s.bias }
{
    if 13 <= precision {
        HexFloat {
            zeros: precision - 13,
            ..whole(s)
        }
    } else {
        carried(
            precision,
            nearest_to(s.mantissa, 1 << (52 - 4 * precision)),
            s,
        )
    }
}

// A normal value.
fn normal(precision: Option<u32>, s: Biased) -> HexFloat
    ensures { result ≡ normal_of precision s.mantissa s.exponent s.bias }
{
    match precision {
        None => trimmed(s),
        Some(p) => with_precision(p.max(1), s),
    }
}

// A subnormal value as it is: no leading 1, 13 digits, exponent -1022.
fn unscaled(mantissa: u64) -> HexFloat
    ensures { result ≡ subnormal_form mantissa }
{
    HexFloat {
        leading: false,
        fraction: mantissa,
        digits: 13,
        zeros: 0,
        exponent: 0,
        bias: 1022,
    }
}

// A subnormal value: scaled up first where fewer than 13 digits are asked for.
fn subnormal(precision: Option<u32>, mantissa: u64) -> HexFloat
    requires { (1 ≤ mantissa) × (mantissa < 2 ^ 52) }
    ensures { result ≡ subnormal_of precision mantissa }
{
    match precision {
        Some(0..=12) => normal(precision, with_bias(scale_up(mantissa), 1077)),
        _ => unscaled(mantissa),
    }
}

// The text of a finite value at a precision, in parts.
#[tactic(auto, unfolding(crate::specs::HexFloat::hex_float_of))]
pub fn hex_float(bits: u64, precision: Option<u32>) -> HexFloat
    ensures { result ≡ hex_float_of bits precision }
{
    let s = with_bias(bits, 1023);
    match (s.exponent, s.mantissa) {
        (0, 0) => HexFloat {
            leading: false,
            fraction: 0,
            digits: 1,
            zeros: 0,
            exponent: 0,
            bias: 0,
        },
        (0, mantissa) => subnormal(precision, mantissa),
        _ => normal(precision, s),
    }
}
