// The runs of an outline in a turn, all columns, as words.
#![tactic(auto)]

ghost use Rattle.std.specs.Prelude.{◌≡◌, ◌*◌, ◌≤◌, length};
ghost use Rattle.std.proofs.lemmas.List.Edits.{sets};
ghost use Rattle.defs.specs.Meaning.Outline.{KeepsOrder};
ghost use Rattle.defs.specs.Meaning.Turn.{turned, extent_x};
ghost use Rattle.defs.specs.Computing.Calls.{rows_words};
ghost use Rattle.outline.specs.Vertex.{Lent, BoundsOf};
ghost use Rattle.outline.specs.Shape.{shape};
ghost use Rattle.cells.specs.Put.{PutRuns, Resolution};
ghost use Rattle.cells.specs.Columns.{pairs, ColumnFits, PutColumn};

use column::Filled;
use outline::{Bounds, Turned};

// No runs yet, and no slab looked at.
fn nothing() -> Filled
    ensures { (result.slab.end ≡ 0) × (result.slab.cut ≡ 0) }
{
    Filled {
        runs: 0,
        slab: cuts::none(),
    }
}

// The n runs of column i, three words a run, from word `at` of the output.
fn put_column(lows: &[u16], highs: &[u16], n: usize, i: u16, out: &mut [u16], at: usize)
    requires { ColumnFits lows.now highs.now n out.old at }
    ensures { out.new ≡ sets out.old at (rows_words i (pairs lows.now highs.now n)) }
{
    let mut p = at;
    for j in 0..n {
        out[p] = i;
        out[p + 1] = lows[j];
        out[p + 2] = highs[j];
        p += 3;
    }
}

// The n runs of column i after k runs, where they fit. Answers how many runs these are.
fn put_if_fits(lows: &[u16], highs: &[u16], n: usize, i: u16, out: &mut [u16], k: usize) -> usize
    requires { (n ≤ length lows.now) × (n ≤ length highs.now) × (n ≤ 8000) × (k ≤ 8000 * i) }
    ensures { PutColumn i (pairs lows.now highs.now n) out.old out.new k result }
{
    let e = k + n;
    if out.len() < 3 * e {
        return e;
    }
    put_column(lows, highs, n, i, out, 3 * k);
    e
}

// The runs of all columns with the gap, three words a run as far as they fit, and how many they are.
pub fn put_runs(o: Turned, r: u16, gap: u16, w: u16, out: &mut [u16]) -> usize
    requires wide { w ≡ extent_x o.words.now o.frame.turn }
    requires ordered { KeepsOrder (shape o) }
    requires limits { Resolution r × (gap ≤ 400) }
    ensures { PutRuns o.entry.words.now o.entry.frame.turn r gap out.old out.new result }
{
    let mut h0 = [0u64; numbers::MOST_VERTICES];
    let mut h1 = [0u64; numbers::MOST_VERTICES];
    let mut d = [0u64; numbers::MOST_VERTICES];
    let mut g0 = [0u64; numbers::MOST_VERTICES];
    let mut g1 = [0u64; numbers::MOST_VERTICES];
    let mut lows = [0u16; numbers::RUN_ROOM];
    let mut highs = [0u16; numbers::RUN_ROOM];
    let reach = w + gap;
    let mut c = nothing();
    let mut k = 0;
    let mut i = 0;
    let mut start = 0;
    while start < reach {
        c = gapcolumn::gap_column(
            o, start, r, gap, w, c.slab, &mut h0, &mut h1, &mut d, &mut g0, &mut g1, &mut lows,
            &mut highs,
        );
        k = put_if_fits(&lows, &highs, c.runs, i, out, k);
        start += r;
        i += 1;
    }
    k
}

// The same in turn t, by the outline's bounds.
pub fn put_turn(o: &[u16], b: Bounds, t: u16, r: u16, gap: u16, w: u16, out: &mut [u16]) -> usize
    requires fact_1 { Lent o.now }
    requires fact_2 { BoundsOf o.now b }
    requires fact_3 { (t ≤ 3) × (w ≡ extent_x o.now t) }
    requires fact_4 { KeepsOrder (turned o.now t) }
    requires fact_5 { Resolution r × (gap ≤ 400) }
    ensures { PutRuns o.now t r gap out.old out.new result }
{
    put_runs(Turned::new(o, b, t), r, gap, w, out)
}
