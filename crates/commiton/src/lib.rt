// A commit on a board: questions 7 to 12 of the position's turn alone, 18 and 14, and the next table with the piece in it. Granted,
// it answers its position, as place does.
#![tactic(auto)]

ghost use Rattle.std.specs.Prelude.{length};
ghost use Rattle.outline.specs.Vertex.{BoundsOf};
ghost use Rattle.position.specs.On.{NextRoom};
ghost use Rattle.commiton.specs.Commits.{TurnPasses, CommittedIn};

use best::Board;
use defs::{Position, Refusal, refused};
use outline::Bounds;
use ranks::Standing;
use walk::Search;

// Questions 11, 12, 18 and 14 of an outline that passes 7 to 10 in the position's turn.
fn commit_runs(
    board: Board,
    o: &[u16],
    b: Bounds,
    p: Position,
    work: &mut [u16],
    first2: &mut [u16],
    lows2: &mut [u16],
    highs2: &mut [u16],
) -> Result<Position, Refusal>
    requires room { NextRoom board.records first2.old lows2.old highs2.old }
    requires passes { TurnPasses o.now p.turn }
    requires bounds { BoundsOf o.now b }
    ensures { CommittedIn board.entry first2.new lows2.new highs2.new o.now p (length work.old) result }
{
    let g = board.figures;
    let e = outline::extent_of(o, b, p.turn);
    let k = cells::put_turn(o, b, p.turn, g.resolution, board.gap, e.w, work);
    if k == 0 {
        return refused(11, 1);
    }
    if work.len() / 3 < k {
        return refused(12, 1);
    }
    let s = Search {
        first: board.first,
        lows: board.lows,
        highs: board.highs,
        runs: work,
        columns: g.columns as usize,
        width: g.width,
        count: k,
        wide: ranks::columns_for(e.w, g.resolution),
        tall: e.h,
    };
    if !spot::fits_at(s, p.column as usize, p.height) {
        return refused(18, 0);
    }
    let stands = Standing {
        turn: p.turn,
        runs: k,
    };
    position::enter_at(board, o, b, p, stands, work, first2, lows2, highs2)
}

// Questions 7 to 12, 18 and 14 of an outline at a position; where it is entered, the next table holds the board's runs after it.
pub fn commit_on(
    board: Board,
    o: &[u16],
    p: Position,
    work: &mut [u16],
    first2: &mut [u16],
    lows2: &mut [u16],
    highs2: &mut [u16],
) -> Result<Position, Refusal>
    requires { NextRoom board.records first2.old lows2.old highs2.old }
    ensures { CommittedIn board.entry first2.new lows2.new highs2.new o.now p (length work.old) result }
{
    match cover::order(o, p.turn) {
        Err(n) => refused(n, 1),
        Ok(b) => commit_runs(board, o, b, p, work, first2, lows2, highs2),
    }
}
