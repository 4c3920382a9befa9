// Parts of a text: lines, comments, and of a line its words, numbers, lengths and vertices.
#![tactic(auto)]

ghost use Rattle.std.specs.Prelude.{◌^◌, ◌≤◌, ◌<◌, length, IfOk};

use fault::Fault;

pub mod fault;

// Thousandths of a millimetre in a unit.
const EIGHTH: u64 = 125;

// The place after the first line of a text.
pub fn line_end(text: &[u8]) -> usize
    ensures moves { 0 < length text.now → 0 < result }
    ensures within { result ≤ length text.now }
{
    match text.iter().position(|b| *b == b'\n') {
        Some(i) => i + 1,
        None => text.len(),
    }
}

pub fn without_comment(line: &[u8]) -> &[u8] {
    let end = line.iter().position(|b| *b == b'#').unwrap_or(line.len());
    &line[..end]
}

fn is_blank(b: u8) -> bool {
    matches!(b, b' ' | b'\t' | b'\r' | b'\n')
}

// The number that digits say, or the largest of its type if that is less.
fn value_of(digits: &[u8]) -> u32 {
    let mut value: u32 = 0;
    for b in digits {
        // '0' is 0x30
        let digit = u32::from(b & 0xf);
        value = value.saturating_mul(10).saturating_add(digit);
    }
    value
}

// What lengths are written in.
#[derive(Clone, Copy, Debug, PartialEq, Eq)]
pub enum Unit {
    Eighth,
    Millimetre,
}

#[derive(Clone, Copy, Debug, PartialEq, Eq)]
pub struct Vertex {
    pub x: u16,
    pub y: u16,
}

// A line that is read from left to right.
#[derive(Clone, Copy, Debug)]
pub struct Scanner<'a> {
    rest: &'a [u8],
}

impl<'a> Scanner<'a> {
    pub fn new(line: &'a [u8]) -> Self {
        Scanner { rest: line }
    }

    // The bytes up to the first that does not pass.
    fn take_while<F: Fn(u8) -> bool>(&mut self, passes: F) -> &'a [u8]
        requires { F.IsAlwaysCallable passes }
    {
        let rest = self.rest;
        let end = rest.iter().position(|b| !passes(*b)).unwrap_or(rest.len());
        self.rest = &rest[end..];
        &rest[..end]
    }

    fn skip_blanks(&mut self) {
        let _ = self.take_while(is_blank);
    }

    // Whether only blanks are left. They are skipped.
    pub fn is_at_end(&mut self) -> bool {
        self.skip_blanks();
        self.rest.is_empty()
    }

    // The bytes before the next blank.
    pub fn word(&mut self) -> &'a [u8] {
        self.take_while(|b| !is_blank(b))
    }

    // All that is left, without the blanks at its ends.
    pub fn remainder(&mut self) -> &'a [u8] {
        self.skip_blanks();
        let rest = self.rest;
        self.rest = b"";
        let end = rest
            .iter()
            .rposition(|b| !is_blank(*b))
            .map_or(0, |i| i + 1);
        &rest[..end]
    }

    // Whether the next byte is this one, which is then skipped.
    fn skip(&mut self, byte: u8) -> bool {
        match self.rest {
            [first, rest @ ..] if *first == byte => {
                self.rest = rest;
                true
            }
            _ => false,
        }
    }

    // The digits that are next, which may be none.
    fn digits(&mut self) -> &'a [u8] {
        self.take_while(|b| b.is_ascii_digit())
    }

    // The number that is next.
    fn whole(&mut self) -> Result<u32, Fault> {
        let digits = self.digits();
        if digits.is_empty() {
            return Err(Fault::Number);
        }
        Ok(value_of(digits))
    }

    // The one to three digits after a point, in thousandths.
    fn decimals(&mut self) -> Result<u64, Fault>
        ensures { IfOk result (λ n. n < 2 ^ 40) }
    {
        let digits = self.digits();
        let value = u64::from(value_of(digits));
        match digits.len() {
            1 => Ok(100 * value),
            2 => Ok(10 * value),
            3 => Ok(value),
            _ => Err(Fault::Decimals),
        }
    }

    // The number of millimetres that is next, in units.
    fn millimetres(&mut self) -> Result<u16, Fault> {
        let mut thousandths = 1000 * u64::from(self.whole()?);
        if self.skip(b'.') {
            thousandths += self.decimals()?;
        }
        if thousandths % EIGHTH != 0 {
            return Err(Fault::Eighth);
        }
        u16::try_from(thousandths / EIGHTH).map_err(|_| Fault::Large)
    }

    // The number of units that is next.
    fn units(&mut self) -> Result<u16, Fault> {
        u16::try_from(self.whole()?).map_err(|_| Fault::Large)
    }

    // The length that is next, in units.
    fn coordinate(&mut self, unit: Unit) -> Result<u16, Fault> {
        match unit {
            Unit::Eighth => self.units(),
            Unit::Millimetre => self.millimetres(),
        }
    }

    // The number that follows blanks.
    pub fn number(&mut self) -> Result<u16, Fault> {
        self.skip_blanks();
        self.units()
    }

    // The length that follows blanks, in units.
    pub fn length(&mut self, unit: Unit) -> Result<u16, Fault> {
        self.skip_blanks();
        self.coordinate(unit)
    }

    // The vertex that is next: two lengths with a comma between them.
    pub fn vertex(&mut self, unit: Unit) -> Result<Vertex, Fault> {
        let x = self.coordinate(unit)?;
        if !self.skip(b',') {
            return Err(Fault::Comma);
        }
        let y = self.coordinate(unit)?;
        Ok(Vertex { x, y })
    }
}
