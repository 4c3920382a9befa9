// The runs of one column of an outline in a turn.
#![tactic(auto)]

ghost use Rattle.std.specs.Prelude.{◌≡◌, ◌≤◌, ◌<◌, length};
ghost use Rattle.defs.specs.Meaning.Outline.{KeepsOrder};
ghost use Rattle.outline.specs.Shape.{shape};
ghost use Rattle.entries.specs.Edges.{AllFit};
ghost use Rattle.gaps.specs.Gaps.{Room};
ghost use Rattle.column.specs.Rows.{AddsPart, on_line, Heights, Parted, Working, ColumnOf};

use cuts::Section;
use outline::Turned;

// The runs of a column, and the slab that was looked at last.
#[derive(Clone, Copy, Debug, PartialEq, Eq)]
pub struct Filled {
    pub runs: usize,
    pub slab: Section,
}

// The height at distance d on the line from height p to height q, l apart.
fn on_line(p: u64, q: u64, l: u64, d: u64) -> u64
    requires { (p ≤ 256000000) × (q ≤ 256000000) × (0 < l) × (d ≤ l) }
    ensures { result ≡ on_line p q l d }
{
    if p < q {
        p + (q - p) / l * d
    } else {
        p - (p - q) / l * d
    }
}

// The heights of the entries at distances d0 and d1 from the left end of their slab, which is l wide.
fn part(h0: &[u64], h1: &[u64], m: usize, l: u64, d0: u64, d1: u64, g0: &mut [u64], g1: &mut [u64])
    requires fact_1 { Heights h0.now h1.now m }
    requires fact_2 { (0 < l) × (d0 ≤ l) × (d1 ≤ l) }
    requires fact_3 { (length g0.old ≡ 64) × (length g1.old ≡ 64) }
    ensures { Parted h0.now h1.now l d0 d1 g0.new g1.new m }
{
    for x in 0..m {
        let p = h0[x];
        let q = h1[x];
        g0[x] = on_line(p, q, l, d0);
        g1[x] = on_line(p, q, l, d1);
    }
}

// The rows of the part from x0 to x1 of the slab s, joined to the runs.
fn portion(
    s: Section,
    x0: u16,
    x1: u16,
    h0: &[u64],
    h1: &[u64],
    w: &[u64],
    g0: &mut [u64],
    g1: &mut [u64],
    lows: &mut [u16],
    highs: &mut [u16],
    n: usize,
) -> usize
    requires fact_1 { AllFit h0.now h1.now w.now s.count }
    requires fact_2 { (s.start ≤ x0) × (x0 < x1) × (x1 ≤ s.end) }
    requires fact_3 { (length g0.old ≡ 64) × (length g1.old ≡ 64) }
    requires fact_4 { Room lows.old highs.old n }
    ensures { AddsPart h0.now h1.now w.now s.start s.end s.count x0 x1 lows.old highs.old lows.new highs.new n result }
{
    let m = s.count as usize;
    if s.start == x0 && x1 == s.end {
        return gaps::gaps(h0, h1, w, m, lows, highs, n);
    }
    let l = u64::from(s.end - s.start);
    let d0 = u64::from(x0 - s.start);
    let d1 = u64::from(x1 - s.start);
    part(h0, h1, m, l, d0, d1, g0, g1);
    gaps::gaps(g0, g1, w, m, lows, highs, n)
}

// The runs of the column from `from` to `to`. What is loaded of the slab s is used again where the column begins in it.
pub fn column(
    o: Turned,
    from: u16,
    to: u16,
    s: Section,
    h0: &mut [u64],
    h1: &mut [u64],
    w: &mut [u64],
    g0: &mut [u64],
    g1: &mut [u64],
    lows: &mut [u16],
    highs: &mut [u16],
) -> Filled
    requires span { from ≤ to }
    requires ordered { KeepsOrder (shape o) }
    requires working { Working (shape o) s.start s.end s.count s.cut h0.old h1.old w.old g0.old g1.old lows.old highs.old }
    ensures { ColumnOf (shape o.entry) from to h0.new h1.new w.new lows.new highs.new result.runs result.slab.start result.slab.end result.slab.count result.slab.cut }
{
    let mut k = s;
    let mut n = 0;
    let mut a = from;
    while a < to {
        k = section::held(o, a, to, k, h0, h1, w);
        let e = k.end.min(to);
        n = portion(k, a, e, h0, h1, w, g0, g1, lows, highs, n);
        a = e;
    }
    Filled { runs: n, slab: k }
}
