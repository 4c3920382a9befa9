// Program `sheet`: writes the sheet of the text on standard input, and to standard error what it draws twice or what is wrong with it.
#![tactic(auto)]

use std::io;

// One byte more than a text may have, so that longer input is noticed.
const INPUT: usize = 262145;

const OUTPUT: usize = 65536;

// The line of a gap, in front of the sheet.
fn write_gap(rt: &HostRuntime, gap: u16) -> io::Result<()> {
    let mut line = [0u8; gapline::ROOM];
    let n = gapline::put_gap(&mut line, 0, gap);
    rt.write_all(&line[..n])
}

fn run(rt: &HostRuntime, input: &mut [u8], output: &mut [u8], notes: &mut [u8]) -> io::Result<()> {
    let n = streams::read_full(&mut rt.stdin(), input)?;
    match typed::sheet_of(rt, &input[..n], output, notes) {
        Ok(sheet) => {
            write_gap(rt, sheet.gap)?;
            rt.write_all(&output[..sheet.bytes])?;
            rt.stderr().write_all(&notes[..sheet.notes])
        }
        Err(n) => rt.stderr().write_all(&output[..n]),
    }
}

fn main(rt: HostRuntime) -> io::Result<()> {
    let mut input = [0u8; INPUT];
    let mut output = [0u8; OUTPUT];
    let mut notes = [0u8; notes::ROOM];
    run(&rt, &mut input, &mut output, &mut notes)
}
