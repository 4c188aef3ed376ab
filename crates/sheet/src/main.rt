// Answers the format and row of standard input on standard output. README.md has the layout of both.
#![tactic(auto)]

ghost use Rattle.std.specs.Prelude.{OnOk, IfSome};
ghost use Rattle.std.specs.Io.KnownBytes.{Appends};
ghost use Rattle.answers.specs.Answers.{sheet_text};

use std::io;
use std::io::{Read, Write};

// Writes the answer to an input, of which the first 65,536 bytes are read; the rest is not looked at.
fn run<R: Read, W: Write>(from: &mut R, to: &mut W) -> io::Result<()>
    ensures { OnOk result (IfSome (R.remaining from.old)
        (λ input. Appends (W.contents to.old) (W.contents to.new) (sheet_text input))) }
{
    let mut input = [0u8; 65536];
    let n = inputs::read_full(from, &mut input)?;
    let mut answer = [0u8; 22528];
    let len = answers::write_answer(&mut answer, &input[..n]);
    to.write_all(&answer[..len])
}

fn main(rt: HostRuntime) -> io::Result<()> {
    run(&mut rt.stdin(), &mut rt.stdout())
}
