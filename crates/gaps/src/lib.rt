// The rows between edges, in pairs, joined to the runs of a column.
#![tactic(auto)]

ghost use Rattle.std.specs.Prelude.{◌+◌, ◌<◌};
ghost use Rattle.entries.specs.Edges.{AllFit};
ghost use Rattle.gaps.specs.Gaps.{Between, Paired, Adds, Room};

// The rows between entries x and x + 1, joined to the runs, unless the two are level.
fn gap(
    h0: &[u64],
    h1: &[u64],
    w: &[u64],
    m: usize,
    x: usize,
    lows: &mut [u16],
    highs: &mut [u16],
    n: usize,
) -> usize
    requires fact_1 { AllFit h0.now h1.now w.now m }
    requires fact_2 { x + 1 < m }
    requires fact_3 { Room lows.old highs.old n }
    ensures { Adds (Between h0.now h1.now w.now x) lows.old highs.old lows.new highs.new n result }
{
    let y = x + 1;
    if (h0[x] + h1[x]) * w[y] < (h0[y] + h1[y]) * w[x] {
        let lo = caps::foot(h0[x], h1[x], w[x]);
        let hi = caps::top(h0[y], h1[y], w[y]);
        if lo < hi {
            return join::join(lows, highs, n, lo as u16, hi as u16);
        }
    }
    n
}

// The rows between the two of each pair of entries, joined to the runs.
pub fn gaps(
    h0: &[u64],
    h1: &[u64],
    w: &[u64],
    m: usize,
    lows: &mut [u16],
    highs: &mut [u16],
    n: usize,
) -> usize
    requires fact_1 { AllFit h0.now h1.now w.now m }
    requires fact_2 { Room lows.old highs.old n }
    ensures { Adds (Paired h0.now h1.now w.now m) lows.old highs.old lows.new highs.new n result }
{
    let mut k = n;
    let mut low = 0;
    while low + 1 < m {
        k = gap(h0, h1, w, m, low, lows, highs, k);
        low += 2;
    }
    k
}
