// The slab of an outline in a turn that reaches over some x, with the edges that span it, in order.
#![tactic(auto)]

ghost use Rattle.std.specs.Prelude.{◌≡◌, ◌<◌, length};
ghost use Rattle.defs.specs.Meaning.Outline.{sides, KeepsOrder};
ghost use Rattle.outline.specs.Shape.{shape};
ghost use Rattle.cuts.specs.Cut.{CutAt};
ghost use Rattle.section.specs.Slabs.{Stock, HeldAt};

use cuts::Section;
use outline::Turned;

// The longest neat slab from a that is found by halving, with its entries: up to `to`, if its edges keep their order.
fn next_slab(o: Turned, a: u16, to: u16, h0: &mut [u64], h1: &mut [u64], w: &mut [u64]) -> Section
    requires ordered { KeepsOrder (shape o) }
    requires cut { CutAt (shape o) a (sides o.words.now) to }
    requires room { (length h0.old ≡ 64) × (length h1.old ≡ 64) × (length w.old ≡ 64) }
    ensures { HeldAt (shape o.entry) a result.start result.end result.count result.cut h0.new h1.new w.new }
{
    let mut e = to;
    let mut l = entries::load(o, a, e, h0, h1, w);
    while a + 1 < e {
        if cuts::tidy(h0, h1, w, l.count as usize) {
            return Section {
                start: a,
                end: e,
                count: l.count,
                cut: l.cut,
            };
        }
        e = a + (e - a) / 2;
        l = entries::load(o, a, e, h0, h1, w);
    }
    Section {
        start: a,
        end: e,
        count: l.count,
        cut: l.cut,
    }
}

// The slab that reaches over x = a: s, or the next one.
pub fn held(
    o: Turned,
    a: u16,
    to: u16,
    s: Section,
    h0: &mut [u64],
    h1: &mut [u64],
    w: &mut [u64],
) -> Section
    requires before { a < to }
    requires ordered { KeepsOrder (shape o) }
    requires stock { Stock (shape o) s.start s.end s.count s.cut h0.old h1.old w.old }
    ensures { HeldAt (shape o.entry) a result.start result.end result.count result.cut h0.new h1.new w.new }
{
    if s.start <= a && a < s.end {
        return s;
    }
    let e = cuts::slab_end(o, a, to, s);
    next_slab(o, a, e, h0, h1, w)
}
