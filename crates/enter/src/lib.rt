// A piece's runs entered into a table laid flat. The new table is built column by column in arrays of its own: the old runs of the column
// are copied to its end, and the piece's runs in the column are joined to them, so that only words of one column are moved.
#![tactic(auto)]

ghost use Rattle.std.specs.Prelude.{◌≤◌, ◌<◌, length};
ghost use Rattle.columnentry.specs.Columns.{Old, Fits};
ghost use Rattle.enter.specs.Enters.{Enters};

use columnentry::{Built, Entry};

// Enters the piece: the arrays first2, lows2 and highs2 are the new table, or the part of it that has too many runs. Their room is for
// 16000 runs of the columns before, 8000 of the column at work, which do not touch in 16000 rows, and one more that is joined. Only the
// total after a column is held against the most, so that a peak on the way does not refuse.
pub fn enter(
    first: &[u16],
    lows: &[u16],
    highs: &[u16],
    runs: &[u16],
    g: Entry,
    first2: &mut [u16],
    lows2: &mut [u16],
    highs2: &mut [u16],
) -> Option<usize>
    requires old { Old first.now lows.now highs.now g }
    requires fits { Fits runs.now g }
    requires room { (4097 ≤ length first2.old) × (24001 ≤ length lows2.old) × (24001 ≤ length highs2.old) }
    ensures { Enters first.now lows.now highs.now runs.now
        first2.new lows2.new highs2.new g result }
{
    let mut b = Built { runs: 0, used: 0 };
    first2[0] = 0;
    for k in 0..g.columns {
        b = columnentry::enter_column(first, lows, highs, runs, g, k, b, lows2, highs2);
        first2[k + 1] = b.runs as u16;
        if g.most < b.runs {
            return None;
        }
    }
    Some(b.runs)
}
