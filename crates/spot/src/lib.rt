// A piece at one position: whether it is on the strip and free there.
#![tactic(auto)]

ghost use Rattle.std.specs.Prelude.{◌+◌, ◌≤◌};
ghost use Rattle.spot.specs.Spot.{FreeIn, FitsIn};

use tries::Tried;
use walk::Search;

// Whether the runs of the piece, moved to column c and height y, hold no occupied cell; what goes past the last column or the top does not
// count. Each run is tried there and not moved on.
fn free_at(s: Search, c: usize, y: u16) -> bool
    requires { (c + s.wide ≤ s.columns) × (y + s.tall ≤ s.width) }
    ensures { FreeIn s.entry c y result }
{
    let n = s.columns;
    for k in 0..walk::runs_before(s.runs, s.count, n - c) {
        let col = c + s.runs[3 * k] as usize;
        let lo = s.runs[3 * k + 1];
        let hi = s.runs[3 * k + 2];
        if let Tried::Jump(_) = tries::try_run(s.first, s.lows, s.highs, col, lo, hi, y, y) {
            return false;
        }
    }
    true
}

// Whether the piece is on the strip and free at column c and height y, which may be any numbers.
pub fn fits_at(s: Search, c: usize, y: u16) -> bool
    ensures { FitsIn s.entry c y result }
{
    if s.columns < s.wide || s.columns - s.wide < c || s.width < s.tall || s.width - s.tall < y {
        return false;
    }
    free_at(s, c, y)
}
