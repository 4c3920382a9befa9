// The placed pieces of a picture: the gap around them, outlines, what they draw twice, and ordinals.
#![tactic(auto)]

ghost use Rattle.std.specs.Prelude.{◌≡◌, ◌+◌, ◌*◌, ◌≤◌, ◌<◌};
ghost use Rattle.defs.specs.Meaning.Outline.{sides};
ghost use Rattle.shapes.specs.Points.{PointOf};

use defs::Position;
use frame::Scene;
use listed::Outlines;
use marks::Spot;
use outline::{Side, Turned};
use svg::Page;

// A vertex of a placed piece, in units.
#[derive(Clone, Copy)]
pub struct Point {
    pub x: u32,
    pub y: u32,
}

// A point of the turned outline, moved to a position in columns of r units.
fn moved(x: u16, y: u16, r: u16, p: Position) -> Point
    ensures across { result.x ≡ x + p.column * r }
    ensures up { result.y ≡ y + p.height }
{
    Point {
        x: u32::from(x) + u32::from(p.column) * u32::from(r),
        y: u32::from(y) + u32::from(p.height),
    }
}

// Where a piece was placed, by its entry.
fn position_of(entry: &[u16]) -> Option<Position> {
    if marks::word(entry, 0) != 0 {
        return None;
    }
    Some(Position {
        turn: marks::word(entry, 1),
        column: marks::word(entry, 2),
        height: marks::word(entry, 3),
    })
}

// A placed piece: its outline is read through the turn of its position, in which it is so long.
#[derive(Clone, Copy)]
struct Piece<'a> {
    outline: Turned<'a>,
    long: u16,
    position: Position,
    resolution: u16,
    ordinal: u64,
    ghost turned: { outline.frame.turn ≡ position.turn },
}

impl<'a> Piece<'a> {
    // The piece with this entry, if it was placed: each that was passes 7 and 8, and its turn is one of four.
    #[tactic(auto, using(checks::proofs::Bounded::lent_by))]
    fn of(o: &'a [u16], entry: &[u16], resolution: u16, ordinal: u64) -> Option<Piece<'a>> {
        let position = position_of(entry)?;
        if numbers::MOST_TURN < position.turn {
            return None;
        }
        let b = checks::bounds(o).ok()?;
        Some(Piece {
            outline: Turned::new(o, b, position.turn),
            long: outline::extent_of(o, b, position.turn).w,
            position,
            resolution,
            ordinal,
        })
    }

    // Vertex i: that of document 01's moved piece.
    fn point_at(&self, i: usize) -> Point
        requires { i < sides self.now.outline.words.now }
        ensures { PointOf self.now.outline.words.now self.now.resolution self.now.position i result.x result.y }
    {
        let v = self.outline.vertex(i);
        moved(v.x, v.y, self.resolution, self.position)
    }

    fn put_points(&self, page: &mut Page) {
        for i in 0..self.outline.sides() {
            let v = self.point_at(i);
            page.fill(b" %l,-%l", &[100 * u64::from(v.x), 100 * u64::from(v.y)]);
        }
    }

    // A stretch that is drawn twice, if it has a length.
    fn put_stretch(&self, page: &mut Page, s: Side) {
        if !stretch::is_long(s) {
            return;
        }
        let from = moved(s.xl, s.yl, self.resolution, self.position);
        let to = moved(s.xr, s.yr, self.resolution, self.position);
        page.fill(
            b"M%l -%lL%l -%l",
            &[
                100 * u64::from(from.x),
                100 * u64::from(from.y),
                100 * u64::from(to.x),
                100 * u64::from(to.y),
            ],
        );
    }

    fn put_ordinal(&self, page: &mut Page, spot: Spot) {
        let corner = moved(0, 0, self.resolution, self.position);
        page.fill(
            b"<text class='middle' dy='.35em' x='%l' y='-%l' font-size='%l'>%n</text>\n",
            &[
                100 * u64::from(corner.x) + u64::from(spot.x),
                100 * u64::from(corner.y) + u64::from(spot.y),
                spot.font,
                self.ordinal,
            ],
        );
    }

    // The outline, and the ordinal in it: by the runs of the piece, in the columns in which it is looked at.
    fn put(&self, page: &mut Page, font: u32, work: &mut [u16]) {
        page.fill(b"<polygon class='piece' points='", &[]);
        self.put_points(page);
        page.fill(b"'/>", &[]);
        let part = marks::part_of(self.long);
        // A piece that was placed has runs, and the work buffer has room for them.
        let count = cover::cover(self.outline.words, self.position.turn, part, 0, work).unwrap_or(
            0,
        );
        let runs = work.get(..marks::RUN_WORDS * count as usize).unwrap_or(&[]);
        let spot = marks::spot_of(runs, self.long, u64::from(font), self.ordinal);
        self.put_ordinal(page, spot);
    }

    // The outline as a part of a path. What it draws twice has no gap, but its shade lies below all pieces.
    fn put_round(&self, page: &mut Page) {
        page.fill(b"M", &[]);
        self.put_points(page);
        page.fill(b"Z", &[]);
    }

    // Dashes over what the outline draws twice, edge by edge, if it does.
    fn put_dashes(&self, page: &mut Page) {
        if !matches!(retrace::retrace(self.outline.words), Ok(Some(_))) {
            return;
        }
        page.fill(b"<path class='twice' d='", &[]);
        for i in 0..self.outline.sides() {
            let s = stretch::longest_from(self.outline, i);
            self.put_stretch(page, s);
        }
        page.fill(b"'/>\n", &[]);
    }
}

// Puts something of each placed piece.
fn put_each<F: FnMut(&Piece)>(s: Scene, list: &[u16], entries: &[u16], mut put: F)
    requires { F.IsAlwaysCallable put }
{
    let entries = entries.chunks_exact(numbers::ENTRY_WORDS);
    for (i, (outline, entry)) in Outlines::of(list).zip(entries).enumerate() {
        if let Some(piece) = Piece::of(outline, entry, s.resolution, i as u64 + 1) {
            put(&piece);
        }
    }
}

// The placed pieces with their ordinals.
pub fn put_pieces(page: &mut Page, s: Scene, list: &[u16], entries: &[u16], work: &mut [u16]) {
    put_each(s, list, entries, |piece| piece.put(page, s.font, work));
}

// The gap around the placed pieces, if there is one: nothing of another piece lies in it.
pub fn put_gap(page: &mut Page, s: Scene, list: &[u16], entries: &[u16]) {
    if s.gap == 0 {
        return;
    }
    frame::put_shade(page, s);
    put_each(s, list, entries, |piece| piece.put_round(page));
    page.fill(b"'/>\n", &[]);
}

// What the placed pieces draw twice, over all of them: such a stretch may lie over another piece.
pub fn put_twice(page: &mut Page, s: Scene, list: &[u16], entries: &[u16]) {
    put_each(s, list, entries, |piece| piece.put_dashes(page));
}
