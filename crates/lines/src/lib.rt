// The lines of a text, into a cut list. A text has a line `strip W R N`, then for each piece a line `piece MASK x,y x,y x,y ..`, or
// `path MASK NAME` with the name of a file that holds its outline as a path. Before the pieces there may be a line `gap 3.125`, always in
// millimetres. `#` begins a comment; after a line `mm` all other lengths are millimetres, before it units of 1/8 mm.
#![tactic(auto)]

ghost use Rattle.std.specs.Prelude.{◌+◌, ◌≤◌, ◌<◌, length, IfOk};

use std::fs::Files;
use tokens::fault::Fault;
use tokens::{Scanner, Unit, Vertex};

// The most bytes of a text.
const MOST_TEXT: usize = 262144;

const MOST_LINES: u16 = 65535;

const LEAST_VERTICES: usize = 3;

const MOST_PIECE_WORDS: usize = 130;

#[derive(Clone, Copy, Debug, PartialEq, Eq)]
pub struct Strip {
    // the number of the line that says it
    pub line: u16,
    pub width: u16,
    pub resolution: u16,
    pub columns: u16,
}

// What a text says, beside its cut list.
#[derive(Clone, Copy, Debug, PartialEq, Eq)]
pub struct Job {
    pub strip: Strip,
    // in units
    pub gap: u16,
    pub pieces: u16,
}

// What is wrong with a text, and the number of its line, 0 where it is no line's fault.
#[derive(Clone, Copy, Debug, PartialEq, Eq)]
pub struct Misread {
    pub fault: Fault,
    pub line: u16,
}

// The vertices to the end of the line, from place `to` of the list. Answers their number.
fn vertices(line: &mut Scanner, unit: Unit, list: &mut [u16], to: usize) -> Result<usize, Fault>
    requires { to + 128 ≤ length list.old }
    ensures { IfOk result (λ n. n ≤ 64) }
{
    let mut count = 0;
    while !line.is_at_end() {
        if numbers::MOST_VERTICES <= count {
            return Err(Fault::Vertices);
        }
        let Vertex { x, y } = line.vertex(unit)?;
        list[to + 2 * count] = x;
        list[to + 2 * count + 1] = y;
        count += 1;
    }
    Ok(count)
}

// Where the vertices of a piece stand: in its line, or in the file that its line names.
#[derive(Clone, Copy)]
enum Source {
    Line,
    File,
}

// What a text has said so far.
#[derive(Clone, Copy)]
struct Draft {
    // the number of the present line
    line: u16,
    strip: Option<Strip>,
    gap: Option<u16>,
    pieces: u16,
    // of the cut list
    words: usize,
    unit: Unit,
}

impl Draft {
    const EMPTY: Draft = Draft {
        line: 0,
        strip: None,
        gap: None,
        pieces: 0,
        words: 1,
        unit: Unit::Eighth,
    };

    fn misread(self, fault: Fault) -> Misread {
        Misread {
            fault,
            line: self.line,
        }
    }

    // `mm`, and no more.
    fn read_mm(&mut self, line: &mut Scanner) -> Result<(), Fault> {
        if !line.is_at_end() {
            return Err(Fault::Alone);
        }
        self.unit = Unit::Millimetre;
        Ok(())
    }

    // Width, resolution and columns, to the end of the line: the number of columns is no length.
    fn read_strip(&mut self, line: &mut Scanner) -> Result<(), Fault> {
        if self.strip.is_some() {
            return Err(Fault::Twice);
        }
        let width = line.length(self.unit)?;
        let resolution = line.length(self.unit)?;
        let columns = line.number()?;
        if !line.is_at_end() {
            return Err(Fault::Figures);
        }
        self.strip = Some(Strip {
            line: self.line,
            width,
            resolution,
            columns,
        });
        Ok(())
    }

    // The gap, once and before the pieces.
    fn read_gap(&mut self, line: &mut Scanner) -> Result<(), Fault> {
        if self.gap.is_some() {
            return Err(Fault::Gaps);
        }
        if self.pieces != 0 {
            return Err(Fault::GapFirst);
        }
        self.gap = Some(gapline::read_gap(line)?);
        Ok(())
    }

    // Mask and vertices of one more piece.
    fn read_piece<R: Files>(
        &mut self,
        rt: &R,
        line: &mut Scanner,
        source: Source,
        list: &mut [u16],
    ) -> Result<(), Fault>
        requires { 130 ≤ length list.old }
    {
        if self.strip.is_none() {
            return Err(Fault::First);
        }
        if records::MOST_PIECES <= usize::from(self.pieces)
            || list.len() - MOST_PIECE_WORDS < self.words
        {
            return Err(Fault::Pieces);
        }
        let mask = line.number()?;
        let to = self.words + 2;
        let count = match source {
            Source::Line => vertices(line, self.unit, list, to)?,
            Source::File => pathfile::put_outline(rt, line, list, to)?,
        };
        self.add_piece(list, count, mask)
    }

    // The count and the mask of a piece before its vertices, which are at the end of the list.
    fn add_piece(&mut self, list: &mut [u16], count: usize, mask: u16) -> Result<(), Fault>
        requires pieces { self.old.pieces < 200 }
        requires count { count ≤ 64 }
        requires room { self.old.words + 130 ≤ length list.old }
    {
        if count < LEAST_VERTICES {
            return Err(Fault::Vertices);
        }
        list[self.words] = count as u16;
        list[self.words + 1] = mask;
        self.words += 2 + 2 * count;
        self.pieces += 1;
        Ok(())
    }

    // One more line, by its first word.
    fn read_line<R: Files>(&mut self, rt: &R, line: &[u8], list: &mut [u16]) -> Result<(), Fault>
        requires { 130 ≤ length list.old }
    {
        let mut line = Scanner::new(tokens::without_comment(line));
        if line.is_at_end() {
            return Ok(());
        }
        match line.word() {
            b"piece" => self.read_piece(rt, &mut line, Source::Line, list),
            b"path" => self.read_piece(rt, &mut line, Source::File, list),
            b"strip" => self.read_strip(&mut line),
            b"gap" => self.read_gap(&mut line),
            b"mm" => self.read_mm(&mut line),
            _ => Err(Fault::Word),
        }
    }

    // At the end of the text.
    fn job(self) -> Result<Job, Misread> {
        match self.strip {
            Some(strip) => Ok(Job {
                strip,
                gap: self.gap.unwrap_or(0),
                pieces: self.pieces,
            }),
            None => Err(self.misread(Fault::NoStrip)),
        }
    }
}

// What a text says. Its pieces go into the list from place 1 on, the numbers of their lines into `lines`.
pub fn read_text<R: Files>(
    rt: &R,
    text: &[u8],
    list: &mut [u16],
    lines: &mut [u16],
) -> Result<Job, Misread>
    requires { 130 ≤ length list.old }
{
    let mut draft = Draft::EMPTY;
    if MOST_TEXT < text.len() {
        return Err(draft.misread(Fault::Long));
    }
    for line in text.split_inclusive(|b| *b == b'\n') {
        if MOST_LINES <= draft.line {
            return Err(draft.misread(Fault::Lines));
        }
        draft.line += 1;
        // for the next piece: if the line is no piece, a later line's number takes its place
        if let Some(l) = lines.get_mut(usize::from(draft.pieces)) {
            *l = draft.line;
        }
        if let Err(fault) = draft.read_line(rt, line, list) {
            return Err(draft.misread(fault));
        }
    }
    draft.job()
}
