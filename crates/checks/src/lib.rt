// Questions 7 to 10.
#![tactic(auto)]

ghost use Rattle.std.specs.Prelude.{◌≡◌, true, false, ◌+◌, ◌≤◌, ◌<◌, min, max};
ghost use Rattle.defs.specs.Meaning.Outline.{sides, edge_at};
ghost use Rattle.defs.specs.Meaning.Turn.{extent_x};
ghost use Rattle.defs.specs.Computing.Vertices.{read_y};
ghost use Rattle.defs.specs.Computing.Calls.{q7b, q8b, q9b};
ghost use Rattle.defs.specs.Computing.Cells.{keeps_orderb, allowedb, ordersb};
ghost use Rattle.outline.specs.Vertex.{Lent, BoundsOf, Small, edge_of};
ghost use Rattle.outline.specs.Shape.{shape};
ghost use Rattle.slabs.specs.Change.{passesb, crossesb, changesb};
ghost use Rattle.checks.specs.Order.{rowb, turnb, HeightOf, Ends, Outside};
ghost use Rattle.checks.specs.Says.{bounds_no, Says};

use outline::{Bounds, Side, Turned, Vertex};

// Question 7: an even length of 6 to 128 words.
pub fn seven(o: &[u16]) -> bool
    ensures { result ≡ q7b o.now }
{
    let n = o.len();
    n % 2 == 0 && (numbers::LEAST_WORDS..=numbers::MOST_WORDS).contains(&n)
}

// Question 8: each coordinate at most 16,000, so the greatest of them; the contract names the outline.
fn eight(o: &[u16], b: Bounds) -> bool
    requires fact_1 { q7b o.now ≡ true }
    requires fact_2 { BoundsOf o.now b }
    ensures { result ≡ q8b o.now }
{
    b.right <= numbers::MOST_COORDINATE && b.head <= numbers::MOST_COORDINATE
}

// Questions 7 and 8.
pub fn bounds(o: &[u16]) -> Result<Bounds, u16>
    ensures { Says o.now (bounds_no o.now) result }
{
    if !seven(o) {
        return Err(7);
    }
    let b = outline::bounds_of(o);
    if !eight(o, b) {
        return Err(8);
    }
    Ok(b)
}

// Question 9: the mask is 1 to 15.
pub fn nine(mask: u16) -> bool
    ensures { result ≡ q9b mask }
{
    (1..=numbers::MOST_MASK).contains(&mask)
}

// The height of an edge at x, times its width.
pub fn height_at(s: Side, x: u16) -> u64
    requires fact_1 { Small s.xl s.yl s.xr s.yr }
    requires fact_2 { (s.xl ≤ x) × (x ≤ s.xr) }
    ensures { HeightOf (edge_of s.xl s.yl s.xr s.yr) x result }
{
    let u = u64::from(s.xr - x);
    let v = u64::from(x - s.xl);
    u64::from(s.yl) * u + u64::from(s.yr) * v
}

// Whether the first line rises through the second strictly inside a unit.
fn passes(a0: u64, b0: u64, a1: u64, b1: u64, l: u64) -> bool
    requires { Ends a0 b0 a1 b1 l }
    ensures { result ≡ passesb a0 b0 a1 b1 l }
{
    if a0 < b0 && b1 < a1 {
        let p = b0 - a0;
        let q = a1 - b1;
        return (l * p) % (p + q) != 0;
    }
    false
}

fn crosses(a0: u64, b0: u64, a1: u64, b1: u64, l: u64) -> bool
    requires { Ends a0 b0 a1 b1 l }
    ensures { result ≡ crossesb a0 b0 a1 b1 l }
{
    passes(a0, b0, a1, b1, l) || passes(b0, a0, b1, a1, l)
}

// Whether two edges change order in some unit column, from their heights at the ends of their common span.
fn swaps(e: Side, f: Side) -> bool
    requires fact_1 { Small e.xl e.yl e.xr e.yr }
    requires fact_2 { Small f.xl f.yl f.xr f.yr }
    ensures { result ≡ changesb (edge_of e.xl e.yl e.xr e.yr) (edge_of f.xl f.yl f.xr f.yr) }
{
    let a = e.xl.max(f.xl);
    let b = e.xr.min(f.xr);
    if a < b {
        let v = u64::from(e.xr - e.xl);
        let w = u64::from(f.xr - f.xl);
        let e0 = height_at(e, a);
        let f0 = height_at(f, a);
        let e1 = height_at(e, b);
        let f1 = height_at(f, b);
        return crosses(e0 * w, f0 * v, e1 * w, f1 * v, u64::from(b - a));
    }
    false
}

// Whether an edge between heights p and q is neither all under height lo nor all over height hi.
fn beside(lo: u16, hi: u16, p: u16, q: u16) -> bool
    ensures { result ≡ false → Outside lo hi p q }
{
    if p <= lo && q <= lo {
        return false;
    }
    p < hi || q < hi
}

// Whether e, between heights lo and hi, changes order with edge j, which goes from y = p to y = q. Its x are read only where it is beside e,
// which few edges are.
fn changes(o: Turned, e: Side, lo: u16, hi: u16, j: usize, p: u16, q: u16) -> bool
    requires small { Small e.xl e.yl e.xr e.yr }
    requires heights { (lo ≡ min e.yl e.yr) × (hi ≡ max e.yl e.yr) }
    requires ends { (j + 1 < sides o.words.now) × (p ≡ read_y o.words.now o.frame.turn j) × (q ≡ read_y o.words.now o.frame.turn (j + 1)) }
    ensures { result ≡ changesb (edge_of e.xl e.yl e.xr e.yr) (edge_at (shape o.entry) j) }
{
    if beside(lo, hi, p, q) {
        let u = o.x(j);
        let v = o.x(j + 1);
        return swaps(
            e,
            outline::side_of(Vertex { x: u, y: p }, Vertex { x: v, y: q }),
        );
    }
    false
}

// Whether an edge changes order with one of the edges before i. Vertex j is at y = p, read in the step before.
fn row(o: Turned, e: Side, i: usize) -> bool
    requires within { i < sides o.words.now }
    requires small { Small e.xl e.yl e.xr e.yr }
    ensures { result ≡ rowb (shape o.entry) (edge_of e.xl e.yl e.xr e.yr) i }
{
    let lo = e.yl.min(e.yr);
    let hi = e.yl.max(e.yr);
    let mut p = o.y(0);
    for j in 0..i {
        let q = o.y(j + 1);
        if changes(o, e, lo, hi, j, p, q) {
            return true;
        }
        p = q;
    }
    false
}

// Question 10 in a turn: whether no two edges change order. u is vertex i, read in the step before.
pub fn keeps_order(o: Turned) -> bool
    ensures { result ≡ keeps_orderb (shape o.entry) (extent_x o.entry.words.now o.entry.frame.turn) }
{
    let mut u = o.vertex(0);
    for i in 0..o.sides() {
        let v = o.vertex(o.next(i));
        let e = outline::side_of(u, v);
        if row(o, e, i) {
            return false;
        }
        u = v;
    }
    true
}

// Whether the mask allows turn t.
pub fn allows(mask: u16, t: u16) -> bool
    requires { t ≤ 3 }
    ensures { result ≡ allowedb mask t }
{
    (mask >> t) & 1 == 1
}

// Whether turn t keeps the order, if the mask allows it.
fn turn_keeps(o: &[u16], b: Bounds, mask: u16, t: u16) -> bool
    requires fact_1 { Lent o.now }
    requires fact_2 { BoundsOf o.now b }
    requires fact_3 { t ≤ 3 }
    ensures { result ≡ turnb o.now mask t }
{
    !allows(mask, t) || keeps_order(Turned::new(o, b, t))
}

// Question 10: whether no two edges change order in an allowed turn.
pub fn all_keep_order(o: &[u16], b: Bounds, mask: u16) -> bool
    requires fact_1 { Lent o.now }
    requires fact_2 { BoundsOf o.now b }
    ensures { result ≡ ordersb o.now mask }
{
    (0..4).all(|t| turn_keeps(o, b, mask, t))
}
