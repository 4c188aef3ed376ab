// Characters by number: Unicode scalar values and their UTF-8 bytes.
// Ported from format_string.rs of datafusion-spark 55.2.0 (Apache-2.0; see NOTICE): codepoint_to_char with the encoding of
// format_char.
ghost use Rattle.std.specs.Prelude.{◌≡◌, ◌≤◌, length};
ghost use Rattle.writing.specs.Writers.{Wrote};
ghost use Rattle.utf8.specs.Scalars.{is_scalar, utf8_of};

use writing::write_text;

// Whether a number is a Unicode scalar value.
pub fn is_scalar(c: u64) -> bool
    ensures { result ≡ is_scalar c }
{
    matches!(c, 0..=0xd7ff | 0xe000..=0x10ffff)
}

// Writes the UTF-8 bytes of a scalar value. Answers how many these are.
#[tactic(auto, using(crate::proofs::ScalarValues::by_range))]
pub fn write_scalar(out: &mut [u8], c: u32) -> usize
    requires { (c ≤ 0x10ffff) × (length (utf8_of c) ≤ length out.old) }
    ensures { Wrote out.old (utf8_of c) result out.new }
{
    let last = (128 + c % 64) as u8;
    match c {
        0..=0x7f => write_text(out, &[c as u8]),
        0x80..=0x7ff => write_text(out, &[(192 + c / 64) as u8, last]),
        0x800..=0xffff => {
            let second = (128 + c / 64 % 64) as u8;
            write_text(out, &[(224 + c / 4096) as u8, second, last])
        }
        _ => {
            let second = (128 + c / 4096 % 64) as u8;
            let third = (128 + c / 64 % 64) as u8;
            write_text(out, &[(240 + c / 262144) as u8, second, third, last])
        }
    }
}
