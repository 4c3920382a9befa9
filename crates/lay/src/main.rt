// Program `lay`: lays the sheet on standard input, and prints what became of its pieces.
#![tactic(auto)]

ghost use Rattle.std.specs.Prelude.{◌≤◌, length};

use std::io;

// One byte more than a sheet may have, so that longer input is noticed: its first 65,537 bytes print what all of it would
// (proved: `first_bytes` in crate `text`). Question 1 asks only for the first bytes, and question 2 refuses both for their length.
const INPUT: usize = 65537;

fn run(rt: &HostRuntime, input: &mut [u8], output: &mut [u8]) -> io::Result<()>
    requires { 8192 ≤ length output.old }
{
    let n = streams::read_full(&mut rt.stdin(), input)?;
    let r = text::lay_text(&input[..n], output);
    rt.write_all(&output[..r])
}

fn main(rt: HostRuntime) -> io::Result<()> {
    let mut input = [0u8; INPUT];
    let mut output = [0u8; text::ROOM];
    run(&rt, &mut input, &mut output)
}
