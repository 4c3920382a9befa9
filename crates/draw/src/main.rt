// Program `draw`: lays the sheet on standard input, with the gap in front of it or without one, and prints a picture of the strip in SVG.
#![tactic(auto)]

use std::io;

// The job on a lent strip. Lends the other buffers.
fn draw_strip(sheet: &[u8], gap: u16, strip: &mut [u16], out: &mut [u8]) -> usize {
    let mut entries = [0u16; lent::ENTRIES];
    let mut work = [0u16; lent::WORK];
    let a = laying::lay(sheet, gap, strip, &mut entries, &mut work);
    drawing::draw_answer(sheet, gap, a, &entries, &mut work, out)
}

// The picture of the job on a sheet, at the start of the output. Answers the number of its bytes, or the output's length if that is
// too short. As much of the strip is lent as the sheet is to have.
fn draw_sheet(sheet: &[u8], gap: u16, out: &mut [u8]) -> usize {
    let mut strip = [0u16; lent::STRIP];
    match strip.get_mut(..lent::strip_words(sheet)) {
        Some(strip) => draw_strip(sheet, gap, strip, out),
        None => 0,
    }
}

fn draw(input: &[u8], out: &mut [u8]) -> usize {
    let f = gapline::front_of(input);
    draw_sheet(&input[f.sheet..], f.gap, out)
}

fn run(rt: &HostRuntime, input: &mut [u8], output: &mut [u8]) -> io::Result<()> {
    let n = streams::read_full(&mut rt.stdin(), input)?;
    let r = draw(&input[..n], output);
    if r < output.len() {
        rt.write_all(&output[..r])
    } else {
        rt.write_all(b"the picture is too long\n")
    }
}

fn main(rt: HostRuntime) -> io::Result<()> {
    let mut input = [0u8; gapline::INPUT];
    let mut output = [0u8; drawing::ROOM];
    run(&rt, &mut input, &mut output)
}
