// Program `show`: prints the sheet on standard input, with or without a gap in front of it, as text.
#![tactic(auto)]

use std::io;

fn run(rt: &HostRuntime, input: &mut [u8], output: &mut [u8]) -> io::Result<()> {
    let n = streams::read_full(&mut rt.stdin(), input)?;
    let r = readable::show_text(&input[..n], output);
    rt.write_all(&output[..r])
}

fn main(rt: HostRuntime) -> io::Result<()> {
    let mut input = [0u8; gapline::INPUT];
    let mut output = [0u8; readable::TEXT_ROOM];
    run(&rt, &mut input, &mut output)
}
