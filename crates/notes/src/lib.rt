// Notes on a job: the pieces whose outline draws a stretch twice.
#![tactic(auto)]

ghost use Rattle.std.specs.Prelude.{◌≤◌, length};

use defs::EdgePair;
use listed::Outlines;
use outline::Side;
use svg::Page;

// The bytes of the notes on a job of 200 pieces, at most.
pub const ROOM: usize = 30000;

// The edge of an outline with this number, counted from 1. Each number that the retrace call answers is one of them.
#[tactic(auto, using(checks::proofs::Bounded::lent_by))]
fn edge_numbered(o: &[u16], k: u16) -> Side {
    let i = usize::from(k);
    match checks::bounds(o) {
        Ok(_) if (1..=o.len() / 2).contains(&i) => retrace::edge(o, i - 1),
        _ => Side {
            xl: 0,
            yl: 0,
            xr: 0,
            yr: 0,
        },
    }
}

// The stretch that two edges of an outline share.
fn shared_by(o: &[u16], p: EdgePair) -> Side {
    stretch::stretch(edge_numbered(o, p.first), edge_numbered(o, p.second))
}

// A stretch that is drawn twice, in millimetres.
fn put_stretch(page: &mut Page, line: u16, s: Side) {
    page.fill(
        b"line %n: drawn twice from %m,%m to %m,%m mm, where a knife may cut into another piece\n",
        &[line, s.xl, s.yl, s.xr, s.yr].map(u64::from),
    );
}

// A note on the piece in this line, if its outline draws a stretch twice.
fn put_note(page: &mut Page, o: &[u16], line: u16) {
    if let Ok(Some(p)) = retrace::retrace(o) {
        put_stretch(page, line, shared_by(o, p));
    }
}

// A note on each piece of a cut list that draws a stretch twice, with the number of its line, as far as there is room.
pub fn put_notes(notes: &mut [u8], list: &[u16], lines: &[u16]) -> usize
    ensures { result ≤ length notes.new }
{
    let room = notes.len();
    let mut page = Page::new(notes, 0);
    for (i, outline) in Outlines::of(list).enumerate() {
        put_note(&mut page, outline, marks::word(lines, i));
    }
    page.len().min(room)
}
