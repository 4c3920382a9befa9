// Place on a board: questions 7 to 14, and the next table with the piece in it.
#![tactic(auto)]

ghost use Rattle.std.specs.Prelude.{length};
ghost use Rattle.position.specs.On.{NextRoom, CountedIn};

use best::Board;
use defs::PlacingTries;
use search::Way;

// Questions 7 to 14 of an outline; where the piece is placed, the next table holds the board's runs after it.
pub fn place_on(
    board: Board,
    o: &[u16],
    mask: u16,
    way: Way,
    work: &mut [u16],
    first2: &mut [u16],
    lows2: &mut [u16],
    highs2: &mut [u16],
) -> PlacingTries
    requires { NextRoom board.records first2.old lows2.old highs2.old }
    ensures { CountedIn board.entry first2.new lows2.new highs2.new o.now mask (length work.old) way result.placing result.tries }
{
    let ninth = checks::nine(mask);
    match asked::order(o, ninth, mask) {
        Err(n) => position::untried(n, 1),
        Ok(b) => position::place_best(board, o, b, mask, way, 0, work, first2, lows2, highs2),
    }
}
