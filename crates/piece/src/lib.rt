// Lays one piece of a sheet on the current one of two tables of runs, which take turns.
#![tactic(auto)]

ghost use Rattle.std.specs.Prelude.{◌≡◌, ◌*◌, ◌≤◌, length};
ghost use Rattle.defs.specs.Computing.Calls.{q9b};
ghost use Rattle.defs.specs.Computing.Sheets.{piece_of, sheet_piece_no};
ghost use Rattle.outline.specs.Vertex.{BoundsOf};
ghost use Rattle.asked.proofs.InOrder.{Ordered};
ghost use Rattle.cutlist.specs.Pieces.{PieceAt};
ghost use Rattle.tables.proofs.Copies.{NoneBefore};
ghost use Rattle.fates.specs.Fates.{Few};
ghost use Rattle.piece.specs.Boards.{held_by, Boards};
ghost use Rattle.piece.specs.Pieces.{PlacedBy, PieceLaid};

use defs::{Entry, Figures, PlacingTries};
use fates::Tally;
use outline::Bounds;
use reader::Reader;
use search::Way;

// Places the outline on the current table, where no free position has its right edge before `lower`; the other one has it entered
// then.
fn place_current(
    g: Figures,
    gap: u16,
    q: usize,
    second: bool,
    first: &mut [u16],
    lows: &mut [u16],
    highs: &mut [u16],
    first2: &mut [u16],
    lows2: &mut [u16],
    highs2: &mut [u16],
    o: &[u16],
    b: Bounds,
    mask: u16,
    lower: u32,
    work: &mut [u16],
) -> PlacingTries
    requires fact_1 { Boards second first.old lows.old highs.old first2.old lows2.old highs2.old g.width g.resolution g.columns gap q }
    requires fact_2 { Ordered o.now (q9b mask) mask }
    requires fact_3 { BoundsOf o.now b }
    requires fact_4 { NoneBefore g.width g.resolution g.columns gap
        (held_by second first.old lows.old highs.old first2.old lows2.old highs2.old g.columns) o.now mask lower }
    ensures { PlacedBy second first.old lows.old highs.old first2.old lows2.old highs2.old
        first.new lows.new highs.new first2.new lows2.new highs2.new
        o.now g.width g.resolution g.columns gap q mask (length work.old) result.placing }
{
    if second {
        position::place_asked(
            g,
            gap,
            q,
            first2,
            lows2,
            highs2,
            o,
            b,
            mask,
            Way::Round,
            lower,
            work,
            first,
            lows,
            highs,
        )
    } else {
        position::place_asked(
            g,
            gap,
            q,
            first,
            lows,
            highs,
            o,
            b,
            mask,
            Way::Round,
            lower,
            work,
            first2,
            lows2,
            highs2,
        )
    }
}

// Places the outline, and puts its entry.
fn lay_outline(
    g: Figures,
    gap: u16,
    q: usize,
    t: Tally,
    first: &mut [u16],
    lows: &mut [u16],
    highs: &mut [u16],
    first2: &mut [u16],
    lows2: &mut [u16],
    highs2: &mut [u16],
    o: &[u16],
    mask: u16,
    lower: u32,
    out: &mut [u16],
    work: &mut [u16],
) -> Tally
    requires fact_1 { Boards t.second first.old lows.old highs.old first2.old lows2.old highs2.old g.width g.resolution g.columns gap q }
    requires fact_2 { Ordered o.now (q9b mask) mask }
    requires fact_3 { Few t }
    requires fact_4 { 4 * t.ordinal ≤ length out.old }
    requires fact_5 { NoneBefore g.width g.resolution g.columns gap
        (held_by t.second first.old lows.old highs.old first2.old lows2.old highs2.old g.columns) o.now mask lower }
    ensures { PieceLaid first.old lows.old highs.old first2.old lows2.old highs2.old
        first.new lows.new highs.new first2.new lows2.new highs2.new
        out.old out.new o.now g.width g.resolution g.columns gap q mask (length work.old) t result }
{
    let b = outline::bounds_of(o);
    let x = place_current(
        g, gap, q, t.second, first, lows, highs, first2, lows2, highs2, o, b, mask, lower, work,
    );
    let a = x.placing;
    let right = fates::right_of(o, b, g.resolution, a);
    fates::put_entry(
        Entry {
            ordinal: t.ordinal,
            fate: fates::fate_of(a),
        },
        out,
    );
    fates::counted(t, a, right)
}

// Lays the piece of piece record `at`, of which no free position has its right edge before `lower`.
pub fn lay_piece(
    sheet: &[u8],
    v: usize,
    at: usize,
    lower: u32,
    g: Figures,
    gap: u16,
    q: usize,
    t: Tally,
    first: &mut [u16],
    lows: &mut [u16],
    highs: &mut [u16],
    first2: &mut [u16],
    lows2: &mut [u16],
    highs2: &mut [u16],
    out: &mut [u16],
    work: &mut [u16],
) -> Tally
    requires fact_1 { PieceAt sheet.now v at }
    requires fact_2 { sheet_piece_no sheet.now at ≡ 0 }
    requires fact_3 { Boards t.second first.old lows.old highs.old first2.old lows2.old highs2.old g.width g.resolution g.columns gap q }
    requires fact_4 { Few t × (4 * t.ordinal ≤ length out.old) }
    requires fact_5 { NoneBefore g.width g.resolution g.columns gap
        (held_by t.second first.old lows.old highs.old first2.old lows2.old highs2.old g.columns)
        (piece_of sheet.now at).outline (piece_of sheet.now at).mask lower }
    ensures { PieceLaid first.old lows.old highs.old first2.old lows2.old highs2.old
        first.new lows.new highs.new first2.new lows2.new highs2.new
        out.old out.new (piece_of sheet.now at).outline g.width g.resolution g.columns gap q
        (piece_of sheet.now at).mask (length work.old) t result }
{
    let piece = Reader::start(sheet, v + at).present();
    let mut words = [0u16; numbers::MOST_WORDS];
    let n = records::gather(sheet, v, piece.first, &mut words).unwrap();
    lay_outline(
        g,
        gap,
        q,
        t,
        first,
        lows,
        highs,
        first2,
        lows2,
        highs2,
        &words[..2 * n],
        piece.second,
        lower,
        out,
        work,
    )
}
