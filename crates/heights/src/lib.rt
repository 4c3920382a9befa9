// The least free height in a column, going round the piece's runs: a run rises until it is free, then the next one does, until all are
// free at one height.
#![tactic(auto)]

ghost use Rattle.std.specs.Prelude.{ℕ, ◌+◌, ◌-◌, ◌≤◌, ◌<◌};
ghost use Rattle.tables.specs.Flat.{Occupied};
ghost use Rattle.tries.specs.Tries.{Column};
ghost use Rattle.heights.specs.Rounds.{Settled, RoundedIn};

use walk::Search;

// The least height from y on at which the rows lo to hi - 1 are free in column c.
fn settle(first: &[u16], lows: &[u16], highs: &[u16], c: usize, lo: u16, hi: u16, y: u16) -> u16
    requires column { Column first.now lows.now highs.now c }
    requires run { (lo < hi) × (hi ≤ 16400) × (y ≤ 16000) }
    requires low { ((x : ℕ) → Occupied first.now lows.now highs.now c x → x < 16000) }
    ensures { Settled first.now lows.now highs.now c lo hi y result }
{
    let a = first[c] as usize;
    let e = first[c + 1] as usize;
    let mut z = y;
    for i in runs::pass(highs, a, e, y + lo)..e {
        if z + hi <= lows[i] {
            return z;
        }
        z = highs[i] - lo;
    }
    z
}

// The least free height in column c, from run `start` on; what goes past the last column or the top does not count.
pub fn round_column(s: Search, c: usize, start: usize) -> Result<u16, usize>
    requires { (c + s.wide ≤ s.columns) × (s.tall ≤ s.width) × (start ≤ s.count - 1) }
    ensures { RoundedIn s.entry c result }
{
    let lows = s.lows;
    let highs = s.highs;
    let runs = s.runs;
    let top = s.width - s.tall;
    let n = s.columns;
    let p = walk::runs_before(runs, s.count, n - c);
    let here = &s.first[c..];
    let mut y: u16 = 0;
    let mut k = if start < p { start } else { 0 };
    let mut left = p;
    while 0 < left {
        let col = runs[3 * k] as usize;
        let z = settle(here, lows, highs, col, runs[3 * k + 1], runs[3 * k + 2], y);
        if top < z {
            return Err(k);
        }
        // where the run rose, all others are tried again
        left = if y < z { p - 1 } else { left - 1 };
        k = if k + 1 < p { k + 1 } else { 0 };
        y = z;
    }
    Ok(y)
}
