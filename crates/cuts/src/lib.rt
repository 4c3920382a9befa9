// Where a slab of an outline in a turn may end, and whether its entries keep their order.
#![tactic(auto)]

ghost use Rattle.std.specs.Prelude.{◌≡◌, true, ◌<◌};
ghost use Rattle.defs.specs.Meaning.Outline.{sides};
ghost use Rattle.outline.specs.Shape.{shape};
ghost use Rattle.entries.specs.Edges.{AllFit, NextAt, Rising};
ghost use Rattle.cuts.specs.Cut.{CutAt};

use outline::Turned;

// The slab that was looked at last, from x = start to x = end, how many edges span it, and where the next slab may end. Empty where
// start is end. Four words of 16 bits, so that one move copies it: it goes through several calls for each column.
#[derive(Clone, Copy, Debug, PartialEq, Eq)]
pub struct Section {
    pub start: u16,
    pub end: u16,
    pub count: u16,
    pub cut: u16,
}

// No slab yet.
pub fn none() -> Section
    ensures { (result.start ≡ 0) × (result.end ≡ 0) × (result.count ≡ 0) × (result.cut ≡ 0) }
{
    Section {
        start: 0,
        end: 0,
        count: 0,
        cut: 0,
    }
}

// The end of the slab that begins at a: the next vertex, or `to`.
pub fn cut(o: Turned, a: u16, to: u16) -> u16
    requires { a < to }
    ensures { CutAt (shape o.entry) a (sides o.entry.words.now) result }
{
    let mut r = to;
    for i in 0..o.sides() {
        r = entries::nearer(a, o.x(i), r);
    }
    r
}

// Whether no entry is above the next at the right side of the slab. They are sorted at the left, so that all keep their order.
pub fn tidy(h0: &[u64], h1: &[u64], w: &[u64], m: usize) -> bool
    requires { AllFit h0.now h1.now w.now m }
    ensures { result ≡ true → Rising h1.now w.now m }
{
    for x in 1..m {
        let y = x - 1;
        if h1[x] * w[y] < h1[y] * w[x] {
            return false;
        }
    }
    true
}

// Where the slab that begins at a may end, found already if it follows s. It may be to the right of `to`: no vertex lies beyond 16,000.
pub fn slab_end(o: Turned, a: u16, to: u16, s: Section) -> u16
    requires before { a < to }
    requires next { NextAt (shape o) s.end (sides (shape o)) s.cut }
    ensures { CutAt (shape o.entry) a (sides o.entry.words.now) result }
{
    if a == s.end && a < s.cut {
        return s.cut;
    }
    cut(o, a, to.max(numbers::MOST_COORDINATE))
}
