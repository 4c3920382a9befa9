// Positions in turns, which of two is better, and which columns a right edge leaves to search.
#![tactic(auto)]

ghost use Rattle.std.specs.Prelude.{◌≡◌, ◌+◌, ◌*◌, ◌-◌, ◌≤◌};
ghost use Rattle.defs.specs.Meaning.Placing.{columns_for};
ghost use Rattle.ranks.specs.Ranks.{beats_by, better_by, merged, limit_of};

use defs::Position;

// More than any right edge on a strip.
pub const NO_EDGE: u32 = 4294967295;

// A position with its rank: its right edge and its top.
#[derive(Clone, Copy)]
pub struct Ranked {
    pub at: Position,
    pub right: u32,
    pub top: u16,
}

// The turn whose runs were put into the work buffer last, over 3 where none was, and how many they are.
#[derive(Clone, Copy, Debug, PartialEq, Eq)]
pub struct Standing {
    pub turn: u16,
    pub runs: usize,
}

// The most runs of the turns tried, the best position in them, the tries made, and what stands in the work buffer.
#[derive(Clone, Copy)]
pub struct Tried {
    pub most: usize,
    pub best: Option<Ranked>,
    pub tries: u32,
    pub stands: Standing,
}

// Whether q has a lesser right edge than p, or the same and a lesser top.
fn beats(q: Ranked, p: Ranked) -> bool
    ensures { result ≡ beats_by q p }
{
    if q.right == p.right {
        q.top < p.top
    } else {
        q.right < p.right
    }
}

// The better of two; a tie goes to the first.
fn better(a: Option<Ranked>, b: Option<Ranked>) -> Option<Ranked>
    ensures { result ≡ better_by a b }
{
    match (a, b) {
        (Some(p), Some(q)) => Some(if beats(q, p) { q } else { p }),
        (Some(p), None) => Some(p),
        (None, q) => q,
    }
}

pub fn merge(s: Tried, x: Tried) -> Tried
    requires { s.tries + x.tries ≤ 4294967295 }
    ensures { result ≡ merged s x }
{
    Tried {
        most: s.most.max(x.most),
        best: better(s.best, x.best),
        tries: s.tries + x.tries,
        stands: x.stands,
    }
}

// The greatest right edge of a position that may win against the choice.
pub fn limit_of(c: Option<Ranked>) -> u32
    ensures { result ≡ limit_of c }
{
    c.map_or(NO_EDGE, |r| r.right)
}

// "column × R + w"
pub fn right_edge(c: u16, w: u16, r: u16) -> u32
    ensures { result ≡ c * r + w }
{
    c as u32 * r as u32 + w as u32
}

fn rounded_up(w: usize, r: u16) -> usize
    requires { (1 ≤ r) × (w ≤ 4294967296) }
    ensures { result ≡ columns_for w r }
{
    (w + (r as usize - 1)) / (r as usize)
}

// "w/R rounded up"
pub fn columns_for(w: u16, r: u16) -> usize
    requires { 1 ≤ r }
    ensures { result ≡ columns_for w r }
{
    rounded_up(w as usize, r)
}

// The columns from which an extent of w ends before a right edge: so many, from the first on.
pub fn columns_before(edge: usize, w: u16, r: u16) -> usize
    requires { (1 ≤ r) × (edge ≤ 4294967296) }
    ensures { result ≡ columns_for (edge - w) r }
{
    rounded_up(edge.saturating_sub(w as usize), r)
}
