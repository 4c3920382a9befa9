// The line `gap 3.125` of a job, in millimetres: in its text, and in front of its sheet, which has no place for a gap.
#![tactic(auto)]

ghost use Rattle.std.specs.Prelude.{◌≤◌, length};

use tokens::fault::Fault;
use tokens::{Scanner, Unit};

// The bytes of the line in front of a sheet, at most.
pub const ROOM: usize = 16;

// One byte more than a sheet with its line may have, so that longer input is noticed.
pub const INPUT: usize = 65553;

// The gap in units, which is all that is left of the line.
pub fn read_gap(line: &mut Scanner) -> Result<u16, Fault> {
    let gap = line.length(Unit::Millimetre)?;
    if !limits::gap_fits(gap) || !line.is_at_end() {
        return Err(Fault::Gap);
    }
    Ok(gap)
}

// The gap that a line says, if it says one.
fn said(line: &[u8]) -> Option<u16> {
    let mut line = Scanner::new(line);
    match line.word() {
        b"gap" => read_gap(&mut line).ok(),
        _ => None,
    }
}

// What stands in front of a sheet: the gap in units, 0 without a line, and the place where the sheet begins.
#[derive(Clone, Copy, Debug, PartialEq, Eq)]
pub struct Front {
    pub gap: u16,
    pub sheet: usize,
}

// A first line that says no gap is part of the sheet: if it is not the sheet's own start, question 1 refuses it.
pub fn front_of(input: &[u8]) -> Front
    ensures { result.sheet ≤ length input.now }
{
    let none = Front { gap: 0, sheet: 0 };
    let end = tokens::line_end(input);
    if ROOM < end {
        return none;
    }
    match said(&input[..end]) {
        Some(gap) => Front { gap, sheet: end },
        None => none,
    }
}

// The line of a gap; nothing of 0.
pub fn put_gap(out: &mut [u8], at: usize, gap: u16) -> usize
    ensures { result ≤ length out.new }
{
    let g = u64::from(gap);
    let end = svg::fill(out, at, b"%?gap %m\n", &[g, g], 0);
    end.min(out.len())
}
