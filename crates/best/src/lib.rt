// The best position among the allowed turns.
#![tactic(auto)]

ghost use Rattle.std.specs.Prelude.{◌≡◌, ◌+◌, ◌≤◌, length};
ghost use Rattle.defs.specs.Meaning.Outline.{KeepsOrder};
ghost use Rattle.defs.specs.Meaning.Turn.{turned};
ghost use Rattle.defs.specs.Meaning.Question.{Question10};
ghost use Rattle.outline.specs.Vertex.{Lent, BoundsOf};
ghost use Rattle.best.specs.Choice.{ranked_at};
ghost use Rattle.best.specs.Of.{NoneBeforeOn, NoneInTurnOn, OneTurnOn, TurnsOn, KeptOn};

mod laid;

use defs::Position;
pub use laid::Board;
use outline::{Bounds, Extent};
use ranks::{Ranked, Standing, Tried};
use search::{Edges, Way};
use walk::Search;

// Column c and height y of turn t, with their rank in columns of r units.
fn rank(c: usize, y: u16, t: u16, e: Extent, r: u16) -> Ranked
    requires { (c ≤ 65535) × (y + e.h ≤ 65535) }
    ensures { result ≡ ranked_at c y t e.w e.h r }
{
    let column = c as u16;
    Ranked {
        at: Position {
            turn: t,
            column,
            height: y,
        },
        right: ranks::right_edge(column, e.w, r),
        top: y + e.h,
    }
}

// The least free position in turn t, where the runs of the turn fit in the work buffer and none has its right edge before `lower`. One
// whose right edge is past `limit` may be left out, where the walk does not count its tries.
fn try_turn(
    board: Board,
    o: &[u16],
    b: Bounds,
    t: u16,
    way: Way,
    lower: u32,
    limit: u32,
    work: &mut [u16],
) -> Tried
    requires lent { Lent o.now }
    requires bounds { BoundsOf o.now b }
    requires turn { t ≤ 3 }
    requires order { KeepsOrder (turned o.now t) }
    requires none_before { NoneInTurnOn board o.now t lower }
    ensures tried { OneTurnOn board.entry o.now t (length work.old) limit way result }
    ensures kept { KeptOn board.entry o.now work.new result.stands.turn result.stands.runs }
{
    let g = board.figures;
    let e = outline::extent_of(o, b, t);
    let k = cells::put_turn(o, b, t, g.resolution, board.gap, e.w, work);
    let untried = Tried {
        most: k,
        best: None,
        tries: 0,
        stands: Standing { turn: t, runs: k },
    };
    if work.len() / 3 < k {
        return untried;
    }
    let s = Search {
        first: board.first,
        lows: board.lows,
        highs: board.highs,
        runs: work,
        columns: g.columns as usize,
        width: g.width,
        count: k,
        wide: ranks::columns_for(e.w, g.resolution),
        tall: e.h,
    };
    let edges = Edges {
        extent: e.w,
        resolution: g.resolution,
        least: lower,
        most: limit,
    };
    let x = search::search(s, way, edges);
    let Some((c, y)) = x.found else {
        return Tried {
            tries: x.tries,
            ..untried
        };
    };
    Tried {
        best: Some(rank(c, y, t, e, g.resolution)),
        tries: x.tries,
        ..untried
    }
}

// The turns tried so far, and turn t if the mask allows it.
fn allowed_turn(
    board: Board,
    o: &[u16],
    b: Bounds,
    mask: u16,
    t: u16,
    way: Way,
    lower: u32,
    work: &mut [u16],
    s: Tried,
) -> Tried
    requires lent { Lent o.now }
    requires bounds { BoundsOf o.now b }
    requires turn { t ≤ 3 }
    requires ten { Question10 o.now mask × NoneBeforeOn board o.now mask lower }
    requires so_far { TurnsOn board o.now mask t (length work.old) way s }
    requires kept { KeptOn board o.now work.old s.stands.turn s.stands.runs }
    ensures tried { TurnsOn board.entry o.now mask (t + 1) (length work.old) way result }
    ensures kept { KeptOn board.entry o.now work.new result.stands.turn result.stands.runs }
{
    if !checks::allows(mask, t) {
        return s;
    }
    let limit = ranks::limit_of(s.best);
    let x = try_turn(board, o, b, t, way, lower, limit, work);
    ranks::merge(s, x)
}

// The best position in the allowed turns, where none has its right edge before `lower`.
pub fn best_turn(
    board: Board,
    o: &[u16],
    b: Bounds,
    mask: u16,
    way: Way,
    lower: u32,
    work: &mut [u16],
) -> Tried
    requires lent { Lent o.now }
    requires bounds { BoundsOf o.now b }
    requires ten { Question10 o.now mask × NoneBeforeOn board o.now mask lower }
    ensures tried { TurnsOn board.entry o.now mask 4 (length work.old) way result }
    ensures kept { KeptOn board.entry o.now work.new result.stands.turn result.stands.runs }
{
    let mut s = Tried {
        most: 0,
        best: None,
        tries: 0,
        stands: Standing { turn: 4, runs: 0 },
    };
    for t in 0..4 {
        s = allowed_turn(board, o, b, mask, t, way, lower, work, s);
    }
    s
}
