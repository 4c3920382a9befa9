// The stretch that two edges share, for pictures and messages.
#![tactic(auto)]

ghost use Rattle.std.specs.Prelude.{◌<◌};
ghost use Rattle.defs.specs.Meaning.Outline.{sides};
ghost use Rattle.outline.specs.Vertex.{Small};

use outline::{Side, Turned};

// The ends of an edge. Points are in order from left to right, and upward at the same x.
fn start(e: Side) -> (u16, u16) {
    (e.xl, e.yl)
}

fn end(e: Side) -> (u16, u16) {
    (e.xr, e.yr)
}

// An edge with its lower end first if it is vertical.
fn upward(e: Side) -> Side {
    if e.xl < e.xr {
        return e;
    }
    Side {
        xl: e.xl,
        yl: e.yl.min(e.yr),
        xr: e.xr,
        yr: e.yl.max(e.yr),
    }
}

// The stretch of two edges that share one: from where the later one begins to where the first one ends.
pub fn stretch(e: Side, f: Side) -> Side {
    let (e, f) = (upward(e), upward(f));
    let (xl, yl) = start(e).max(start(f));
    let (xr, yr) = end(e).min(end(f));
    Side { xl, yl, xr, yr }
}

// The start of an edge, as a stretch without length.
fn start_of(e: Side) -> Side {
    let (x, y) = start(upward(e));
    Side {
        xl: x,
        yl: y,
        xr: x,
        yr: y,
    }
}

// The stretch that two edges share, if the first one's start is in it; else that start.
fn from_start(e: Side, f: Side) -> Side
    requires first { Small e.xl e.yl e.xr e.yr }
    requires second { Small f.xl f.yl f.xr f.yr }
{
    let s = start_of(e);
    if !retrace::shares(e, f) {
        return s;
    }
    let t = stretch(e, f);
    if start(s) < start(t) { s } else { t }
}

// Whether a stretch has a length.
pub fn is_long(s: Side) -> bool {
    start(s) < end(s)
}

// The longest stretch from the start of edge i of a turned outline that another edge shares. Each stretch that is drawn twice lies in one of
// these, since it begins where one of its two edges does.
pub fn longest_from(t: Turned, i: usize) -> Side
    requires { i < sides t.words.now }
{
    let e = t.side(i);
    let mut longest = start_of(e);
    for j in 0..t.sides() {
        if j != i {
            let s = from_start(e, t.side(j));
            if end(longest) < end(s) {
                longest = s;
            }
        }
    }
    longest
}
