// Whether an outline has a cell in a turn.
#![tactic(auto)]

ghost use Rattle.std.specs.Prelude.{◌≡◌, true, ◌≤◌, ◌<◌, length};
ghost use Rattle.defs.specs.Meaning.Outline.{KeepsOrder};
ghost use Rattle.defs.specs.Meaning.Turn.{turned, extent_x};
ghost use Rattle.outline.specs.Vertex.{Lent, BoundsOf};
ghost use Rattle.outline.specs.Shape.{shape};
ghost use Rattle.entries.specs.Edges.{AllFit};
ghost use Rattle.inside.specs.Cell.{LowestApart, HasCell};

use outline::{Bounds, Turned};

// Whether the two lowest of m entries are apart.
fn apart(h0: &[u64], h1: &[u64], w: &[u64], m: usize) -> bool
    requires { AllFit h0.now h1.now w.now m }
    ensures { result ≡ true → LowestApart h0.now h1.now w.now m }
{
    2 <= m && h0[0] < 16000 * w[0] && (h0[0] + h1[0]) * w[1] < (h0[1] + h1[1]) * w[0]
}

// Whether the two lowest edges of the first slab are apart: a cell is covered between them.
fn opens(o: Turned, wide: u16, h0: &mut [u64], h1: &mut [u64], w: &mut [u64]) -> bool
    requires wide { 0 < wide }
    requires ordered { KeepsOrder (shape o) }
    requires room { (length h0.old ≡ 64) × (length h1.old ≡ 64) × (length w.old ≡ 64) }
    ensures { result ≡ true → HasCell o.entry.words.now o.entry.frame.turn true }
{
    let s = section::held(o, 0, wide, cuts::none(), h0, h1, w);
    apart(h0, h1, w, s.count as usize)
}

// Whether the slab at the left end of the outline, `wide` units wide, shows a cell.
fn opens_left(o: Turned, wide: u16) -> bool
    requires wide { 0 < wide }
    requires ordered { KeepsOrder (shape o) }
    ensures { result ≡ true → HasCell o.entry.words.now o.entry.frame.turn true }
{
    let mut h0 = [0u64; numbers::MOST_VERTICES];
    let mut h1 = [0u64; numbers::MOST_VERTICES];
    let mut w = [0u64; numbers::MOST_VERTICES];
    opens(o, wide, &mut h0, &mut h1, &mut w)
}

// Whether a cell is covered in the frame's turn: all of the outline, so wide, as one column has a run.
fn has_run(o: Turned, wide: u16) -> bool
    requires wide { wide ≡ extent_x o.words.now o.frame.turn }
    requires ordered { KeepsOrder (shape o) }
    ensures { HasCell o.entry.words.now o.entry.frame.turn result }
{
    let mut h0 = [0u64; numbers::MOST_VERTICES];
    let mut h1 = [0u64; numbers::MOST_VERTICES];
    let mut w = [0u64; numbers::MOST_VERTICES];
    let mut g0 = [0u64; numbers::MOST_VERTICES];
    let mut g1 = [0u64; numbers::MOST_VERTICES];
    let mut lows = [0u16; numbers::RUN_ROOM];
    let mut highs = [0u16; numbers::RUN_ROOM];
    let c = column::column(
        o,
        0,
        wide,
        cuts::none(),
        &mut h0,
        &mut h1,
        &mut w,
        &mut g0,
        &mut g1,
        &mut lows,
        &mut highs,
    );
    c.runs != 0
}

// Whether a cell is covered in turn t. The first slab shows it for most outlines.
pub fn has_cell(o: &[u16], b: Bounds, t: u16) -> bool
    requires fact_1 { Lent o.now }
    requires fact_2 { BoundsOf o.now b }
    requires fact_3 { t ≤ 3 }
    requires fact_4 { KeepsOrder (turned o.now t) }
    ensures { HasCell o.now t result }
{
    let e = outline::extent_of(o, b, t);
    let r = Turned::new(o, b, t);
    0 < e.w && opens_left(r, e.w) || has_run(r, e.w)
}
