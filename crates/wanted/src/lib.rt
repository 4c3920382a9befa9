// A piece wanted on a strip, at the best position in the turns of a mask or at a given position: the answer to the strip's words, and the
// strip with the piece on it. Place, ask and commit are this.
#![tactic(auto)]

ghost use Rattle.std.specs.Prelude.{◌≤◌, length};
ghost use Rattle.decode.specs.Decodes.{Holds_runs};
ghost use Rattle.position.specs.On.{NextRoom};
ghost use Rattle.wanted.specs.Answers.{OnBoard, Looked, Put};

use best::Board;
use defs::{Figures, PlacingTries, Position};
use search::Way;

// The best position in the turns of a mask, or a given one.
#[derive(Clone, Copy)]
pub enum Wanted {
    Best(u16),
    At(Position),
}

// Questions 7 to 14, with the tries, or 7 to 12, 18 and 14; where there is a position, the next table holds the board's runs with the
// piece there.
fn on_table(
    board: Board,
    o: &[u16],
    wanted: Wanted,
    work: &mut [u16],
    first2: &mut [u16],
    lows2: &mut [u16],
    highs2: &mut [u16],
) -> PlacingTries
    requires { NextRoom board.records first2.old lows2.old highs2.old }
    ensures { OnBoard board.entry first2.new lows2.new highs2.new o.now wanted (length work.old) result.placing result.tries }
{
    match wanted {
        Wanted::Best(mask) => placeon::place_on(
            board,
            o,
            mask,
            Way::Walk,
            work,
            first2,
            lows2,
            highs2,
        ),
        Wanted::At(p) => PlacingTries {
            placing: commiton::commit_on(board, o, p, work, first2, lows2, highs2),
            tries: 0,
        },
    }
}

// Question 5 has passed, and the table holds the strip's runs.
fn look_decoded(
    strip: &[u16],
    first: &[u16],
    lows: &[u16],
    highs: &[u16],
    t: usize,
    o: &[u16],
    wanted: Wanted,
    work: &mut [u16],
    first2: &mut [u16],
    lows2: &mut [u16],
    highs2: &mut [u16],
) -> PlacingTries
    requires holds { Holds_runs strip.now first.now lows.now highs.now t }
    requires room { (4097 ≤ length first2.old) × (24001 ≤ length lows2.old) × (24001 ≤ length highs2.old) }
    ensures { Looked strip.now o.now wanted (length work.old) result.placing result.tries first2.new lows2.new highs2.new }
{
    let figures = Figures {
        width: strip[limits::WIDTH],
        resolution: strip[limits::RESOLUTION],
        columns: strip[limits::COLUMNS],
    };
    let board = Board {
        figures,
        gap: strip[limits::GAP],
        records: limits::records_of(figures.columns, strip.len()),
        first,
        lows,
        highs,
    };
    on_table(board, o, wanted, work, first2, lows2, highs2)
}

// All questions; where there is a position, the next table holds the strip's runs with the piece there. Leaves words in the work buffer.
pub fn look(
    strip: &[u16],
    o: &[u16],
    wanted: Wanted,
    work: &mut [u16],
    first2: &mut [u16],
    lows2: &mut [u16],
    highs2: &mut [u16],
) -> PlacingTries
    requires { (4097 ≤ length first2.old) × (24001 ≤ length lows2.old) × (24001 ≤ length highs2.old) }
    ensures { Looked strip.now o.now wanted (length work.old) result.placing result.tries first2.new lows2.new highs2.new }
{
    let mut first = [0u16; limits::FIRSTS];
    let mut lows = [0u16; limits::MOST_RECORDS];
    let mut highs = [0u16; limits::MOST_RECORDS];
    match decode::decode(strip, &mut first, &mut lows, &mut highs) {
        Some(t) => look_decoded(
            strip, &first, &lows, &highs, t, o, wanted, work, first2, lows2, highs2,
        ),
        None => position::untried(5, 0),
    }
}

// The same, and the piece on the strip.
fn put_with(
    strip: &mut [u16],
    o: &[u16],
    wanted: Wanted,
    work: &mut [u16],
    first2: &mut [u16],
    lows2: &mut [u16],
    highs2: &mut [u16],
) -> PlacingTries
    requires { (4097 ≤ length first2.old) × (24001 ≤ length lows2.old) × (24001 ≤ length highs2.old) }
    ensures { Put strip.old o.now wanted (length work.old) result.placing result.tries strip.new }
{
    let x = look(strip, o, wanted, work, first2, lows2, highs2);
    match x.placing {
        Ok(_) => {
            let g = Figures {
                width: strip[limits::WIDTH],
                resolution: strip[limits::RESOLUTION],
                columns: strip[limits::COLUMNS],
            };
            let gap = strip[limits::GAP];
            let n = first2[g.columns as usize] as usize;
            encode::encode(strip, g, gap, first2, lows2, highs2, n);
            x
        }
        Err(_) => x,
    }
}

// Lends the next table.
pub fn put(strip: &mut [u16], o: &[u16], wanted: Wanted, work: &mut [u16]) -> PlacingTries
    ensures { Put strip.old o.now wanted (length work.old) result.placing result.tries strip.new }
{
    let mut first2 = [0u16; limits::FIRSTS];
    let mut lows2 = [0u16; position::NEXT_RUNS];
    let mut highs2 = [0u16; position::NEXT_RUNS];
    put_with(strip, o, wanted, work, &mut first2, &mut lows2, &mut highs2)
}
