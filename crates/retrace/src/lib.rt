// The retrace call: whether an outline, as it is lent, goes twice along a stretch, and along which two edges first.
#![tactic(auto)]

ghost use Rattle.std.specs.Prelude.{◌≡◌, ◌≤◌, ◌<◌};
ghost use Rattle.defs.specs.Meaning.Outline.{sides};
ghost use Rattle.outline.specs.Vertex.{Lent, Small, edge_of};
ghost use Rattle.strokes.specs.Retrace.{rise_alike, level, run_along, stand_along, sharesb, first_pair, RetraceStep};
ghost use Rattle.retrace.specs.Edges.{EdgeIs, After};

use defs::{EdgePair, Refusal, refused};
use outline::{Side, Vertex};

// Whether two edges rise alike.
fn rise_alike(e: Side, f: Side) -> bool
    requires fact_1 { Small e.xl e.yl e.xr e.yr }
    requires fact_2 { Small f.xl f.yl f.xr f.yr }
    ensures { result ≡ rise_alike (edge_of e.xl e.yl e.xr e.yr) (edge_of f.xl f.yl f.xr f.yr) }
{
    let v = u64::from(e.xr - e.xl);
    let w = u64::from(f.xr - f.xl);
    let a = u64::from(e.yl);
    let b = u64::from(e.yr);
    let c = u64::from(f.yl);
    let d = u64::from(f.yr);
    b * w + c * v == d * v + a * w
}

// Whether two edges have the same height at x, where both are.
fn level_at(e: Side, f: Side, x: u16) -> bool
    requires fact_1 { Small e.xl e.yl e.xr e.yr }
    requires fact_2 { Small f.xl f.yl f.xr f.yr }
    requires fact_3 { (e.xl ≤ x) × (x ≤ e.xr) × (f.xl ≤ x) × (x ≤ f.xr) }
    ensures { result ≡ level (edge_of e.xl e.yl e.xr e.yr) (edge_of f.xl f.yl f.xr f.yr) x }
{
    let v = u64::from(e.xr - e.xl);
    let w = u64::from(f.xr - f.xl);
    checks::height_at(e, x) * w == checks::height_at(f, x) * v
}

// Whether two edges, neither vertical, run along each other.
fn run_along(e: Side, f: Side) -> bool
    requires fact_1 { Small e.xl e.yl e.xr e.yr }
    requires fact_2 { Small f.xl f.yl f.xr f.yr }
    ensures { result ≡ run_along (edge_of e.xl e.yl e.xr e.yr) (edge_of f.xl f.yl f.xr f.yr) }
{
    let a = e.xl.max(f.xl);
    let b = e.xr.min(f.xr);
    a < b && rise_alike(e, f) && level_at(e, f, a)
}

// Whether two vertical edges stand along each other.
fn stand_along(e: Side, f: Side) -> bool
    ensures { result ≡ stand_along (edge_of e.xl e.yl e.xr e.yr) (edge_of f.xl f.yl f.xr f.yr) }
{
    // first, since most edges are not vertical
    if e.xl != e.xr || f.xl != f.xr || e.xl != f.xl {
        return false;
    }
    let low = e.yl.min(e.yr).max(f.yl.min(f.yr));
    let high = e.yl.max(e.yr).min(f.yl.max(f.yr));
    low < high
}

// Whether two edges share a stretch.
pub fn shares(e: Side, f: Side) -> bool
    requires fact_1 { Small e.xl e.yl e.xr e.yr }
    requires fact_2 { Small f.xl f.yl f.xr f.yr }
    ensures { result ≡ sharesb (edge_of e.xl e.yl e.xr e.yr) (edge_of f.xl f.yl f.xr f.yr) }
{
    run_along(e, f) || stand_along(e, f)
}

// Edge i of the outline as it is lent.
pub fn edge(o: &[u16], i: usize) -> Side
    requires fact_1 { Lent o.now }
    requires fact_2 { i < sides o.now }
    ensures { EdgeIs o.now i result.xl result.yl result.xr result.yr }
{
    let j = outline::next(o.len() / 2, i);
    let u = Vertex {
        x: o[2 * i],
        y: o[2 * i + 1],
    };
    let v = Vertex {
        x: o[2 * j],
        y: o[2 * j + 1],
    };
    outline::side_of(u, v)
}

// The first edge after edge i that shares a stretch with it.
fn shared_after(o: &[u16], i: usize) -> Option<usize>
    requires fact_1 { Lent o.now }
    requires fact_2 { i < sides o.now }
    ensures { After o.now i result }
{
    let e = edge(o, i);
    for j in i + 1..o.len() / 2 {
        if shares(e, edge(o, j)) {
            return Some(j);
        }
    }
    None
}

// The first two edges that share a stretch.
fn first_pair(o: &[u16]) -> Option<EdgePair>
    requires { Lent o.now }
    ensures { result ≡ first_pair o.now }
{
    for i in 0..o.len() / 2 {
        if let Some(j) = shared_after(o, i) {
            return Some(EdgePair {
                first: (i + 1) as u16,
                second: (j + 1) as u16,
            });
        }
    }
    None
}

// The retrace call.
pub fn retrace(o: &[u16]) -> Result<Option<EdgePair>, Refusal>
    ensures { RetraceStep o.now result }
{
    match checks::bounds(o) {
        Err(n) => refused(n, 1),
        Ok(_) => Ok(first_pair(o)),
    }
}
