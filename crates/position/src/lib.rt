// The best position of an outline on a table of runs, and the table with the piece entered there: what place, commit and lay share.
#![tactic(auto)]

ghost use Rattle.std.specs.Prelude.{◌≡◌, ◌*◌, ◌≤◌, length};
ghost use Rattle.defs.specs.Meaning.Outline.{KeepsOrder};
ghost use Rattle.defs.specs.Meaning.Turn.{turned};
ghost use Rattle.defs.specs.Computing.Cells.{piece_runs, count_runs};
ghost use Rattle.defs.specs.Computing.Calls.{q9b};
ghost use Rattle.outline.specs.Vertex.{Lent, BoundsOf};
ghost use Rattle.tables.specs.Flat.{table_of};
ghost use Rattle.tables.specs.Piece.{Stands};
ghost use Rattle.tables.proofs.Copies.{NoneBefore};
ghost use Rattle.best.specs.Of.{NoneBeforeOn, KeptOn};
ghost use Rattle.asked.proofs.InOrder.{Ordered};
ghost use Rattle.position.specs.Table.{Tabled, CountedOn};
ghost use Rattle.position.specs.On.{NextRoom, EnterableIn, EntersIn, CountedIn};

use best::Board;
use defs::{Figures, PlacingTries, Position, Refusal, refused};
use outline::Bounds;
use ranks::Standing;
use search::Way;

// Runs of the next table, and of a column that is being entered.
pub const NEXT_RUNS: usize = 24001;

// Refused before anything was tried.
pub fn untried(number: u16, ordinal: u16) -> PlacingTries
    ensures { result ≡ record { placing = Err (record { number = number; ordinal = ordinal }); tries = 0 } }
{
    PlacingTries {
        placing: refused(number, ordinal),
        tries: 0,
    }
}

// The runs of turn t stand in the work buffer, where they were put last, or are put there. Answers how many they are.
fn stand_runs(board: Board, o: &[u16], b: Bounds, t: u16, s: Standing, work: &mut [u16]) -> usize
    requires lent { Lent o.now }
    requires bounds { BoundsOf o.now b }
    requires room { (t ≤ 3) × (3 * count_runs (piece_runs o.now t board.figures.resolution board.gap) ≤ length work.old) }
    requires order { KeepsOrder (turned o.now t) }
    requires kept { KeptOn board o.now work.old s.turn s.runs }
    ensures { Stands (piece_runs o.now t board.entry.figures.resolution board.entry.gap) work.new result }
{
    if s.turn == t {
        return s.runs;
    }
    let e = outline::extent_of(o, b, t);
    cells::put_turn(o, b, t, board.figures.resolution, board.gap, e.w, work)
}

// Question 14 of position p; the next table has the piece entered there.
pub fn enter_at(
    board: Board,
    o: &[u16],
    b: Bounds,
    p: Position,
    s: Standing,
    work: &mut [u16],
    first2: &mut [u16],
    lows2: &mut [u16],
    highs2: &mut [u16],
) -> Result<Position, Refusal>
    requires room { NextRoom board.records first2.old lows2.old highs2.old }
    requires at { EnterableIn board o.now b (length work.old) p }
    requires kept { KeptOn board o.now work.old s.turn s.runs }
    ensures { EntersIn board.entry first2.new lows2.new highs2.new o.now p result }
{
    let k = stand_runs(board, o, b, p.turn, s, work);
    let at = columnentry::Entry {
        columns: board.figures.columns as usize,
        width: board.figures.width,
        most: board.records,
        runs: k,
        column: p.column as usize,
        height: p.height,
    };
    match enter::enter(
        board.first,
        board.lows,
        board.highs,
        work,
        at,
        first2,
        lows2,
        highs2,
    ) {
        Some(_) => Ok(p),
        None => refused(14, 1),
    }
}

// Questions 11 to 14 of an outline with bounds b that passes those before, on a board where no free position has its right edge before
// `lower`; where the piece is placed, the next table holds the runs after it. The walk counts its tries, the way round none.
pub fn place_best(
    board: Board,
    o: &[u16],
    b: Bounds,
    mask: u16,
    way: Way,
    lower: u32,
    work: &mut [u16],
    first2: &mut [u16],
    lows2: &mut [u16],
    highs2: &mut [u16],
) -> PlacingTries
    requires room { NextRoom board.records first2.old lows2.old highs2.old }
    requires ordered { Ordered o.now (q9b mask) mask }
    requires bounds { BoundsOf o.now b }
    requires none_before { NoneBeforeOn board o.now mask lower }
    ensures { CountedIn board.entry first2.new lows2.new highs2.new o.now mask (length work.old) way result.placing result.tries }
{
    let room = work.len() / 3;
    let s = best::best_turn(board, o, b, mask, way, lower, work);
    if s.most == 0 {
        return untried(11, 1);
    }
    if room < s.most {
        return untried(12, 1);
    }
    match s.best {
        Some(r) => PlacingTries {
            placing: enter_at(board, o, b, r.at, s.stands, work, first2, lows2, highs2),
            tries: s.tries,
        },
        None => PlacingTries {
            placing: refused(13, 1),
            tries: s.tries,
        },
    }
}

// The same, of a table that is not on a board yet.
pub fn place_asked(
    g: Figures,
    gap: u16,
    q: usize,
    first: &[u16],
    lows: &[u16],
    highs: &[u16],
    o: &[u16],
    b: Bounds,
    mask: u16,
    way: Way,
    lower: u32,
    work: &mut [u16],
    first2: &mut [u16],
    lows2: &mut [u16],
    highs2: &mut [u16],
) -> PlacingTries
    requires fact_1 { Tabled first.now lows.now highs.now first2.old lows2.old highs2.old g.width g.resolution g.columns gap q }
    requires fact_2 { Ordered o.now (q9b mask) mask }
    requires fact_3 { BoundsOf o.now b }
    requires fact_4 { NoneBefore g.width g.resolution g.columns gap (table_of first.now lows.now highs.now g.columns) o.now mask lower }
    ensures { CountedOn first.now lows.now highs.now first2.new lows2.new highs2.new o.now g.width g.resolution g.columns gap q mask (length work.old) way result.placing result.tries }
{
    let board = Board {
        figures: g,
        gap,
        records: q,
        first,
        lows,
        highs,
    };
    place_best(board, o, b, mask, way, lower, work, first2, lows2, highs2)
}
