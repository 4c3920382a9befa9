// The outline: bounds, extents, vertices and edges, read through the turn. No turned outline is stored.
#![tactic(auto)]

ghost use Rattle.std.specs.Prelude.{◌≡◌, ◌≤◌, ◌<◌};
ghost use Rattle.defs.specs.Meaning.Outline.{sides, after, edge_between};
ghost use Rattle.defs.specs.Meaning.Turn.{extent_x, extent_y};
ghost use Rattle.defs.specs.Computing.Vertices.{read_x, read_y};
ghost use Rattle.outline.specs.Vertex.{Lent, BoundsOf, FrameOf, VertexOf, SideOf, edge_of};

// The least and the greatest x and y of an outline.
#[derive(Clone, Copy, Debug, PartialEq, Eq)]
pub struct Bounds {
    pub left: u16,
    pub right: u16,
    pub foot: u16,
    pub head: u16,
}

// The width and the height of an outline in a turn.
#[derive(Clone, Copy, Debug, PartialEq, Eq)]
pub struct Extent {
    pub w: u16,
    pub h: u16,
}

#[derive(Clone, Copy, Debug, PartialEq, Eq)]
pub struct Vertex {
    pub x: u16,
    pub y: u16,
}

// How a turn reads a vertex: its distances from the corner (x, y) of the bounds that the turn takes to (0, 0), x by its first word (0) or
// its second (1). Four words of 16 bits, so that one register holds it.
#[derive(Clone, Copy, Debug, PartialEq, Eq)]
pub struct Frame {
    pub turn: u16,
    pub x: u16,
    pub y: u16,
    pub word: u16,
}

// An edge, the left end first.
#[derive(Clone, Copy, Debug, PartialEq, Eq)]
pub struct Side {
    pub xl: u16,
    pub yl: u16,
    pub xr: u16,
    pub yr: u16,
}

// The bounds of an outline that has a vertex.
pub fn bounds_of(o: &[u16]) -> Bounds
    requires { 1 ≤ sides o.now }
    ensures { BoundsOf o.now result }
{
    let mut left = o[0];
    let mut right = o[0];
    let mut foot = o[1];
    let mut head = o[1];
    for i in 1..o.len() / 2 {
        let x = o[2 * i];
        let y = o[2 * i + 1];
        left = left.min(x);
        right = right.max(x);
        foot = foot.min(y);
        head = head.max(y);
    }
    Bounds {
        left,
        right,
        foot,
        head,
    }
}

// The extent of the outline in turn t, by its bounds; the contract names the outline.
pub fn extent_of(o: &[u16], b: Bounds, t: u16) -> Extent
    requires fact_1 { 1 ≤ sides o.now }
    requires fact_2 { BoundsOf o.now b }
    requires fact_3 { t ≤ 3 }
    ensures { (result.w ≡ extent_x o.now t) × (result.h ≡ extent_y o.now t) }
{
    let across = b.right - b.left;
    let up = b.head - b.foot;
    if t % 2 == 0 {
        Extent { w: across, h: up }
    } else {
        Extent { w: up, h: across }
    }
}

// The frame of turn t; the contract names the outline.
pub fn frame_of(o: &[u16], b: Bounds, t: u16) -> Frame
    requires fact_1 { BoundsOf o.now b }
    requires fact_2 { t ≤ 3 }
    ensures { (result.turn ≡ t) × FrameOf o.now result }
{
    let (x, y) = match t {
        0 => (b.left, b.foot),
        1 => (b.head, b.left),
        2 => (b.right, b.head),
        _ => (b.foot, b.right),
    };
    Frame {
        turn: t,
        x,
        y,
        word: t % 2,
    }
}

// x of vertex i in the frame's turn: how far its word is from the corner. Of any outline, also one that is not within the limits.
pub fn x_at(o: &[u16], f: Frame, i: usize) -> u16
    requires fact_1 { FrameOf o.now f }
    requires fact_2 { i < sides o.now }
    ensures { result ≡ read_x o.now f.turn i }
{
    f.x.abs_diff(o[2 * i + f.word as usize])
}

// y of vertex i, by its other word.
pub fn y_at(o: &[u16], f: Frame, i: usize) -> u16
    requires fact_1 { FrameOf o.now f }
    requires fact_2 { i < sides o.now }
    ensures { result ≡ read_y o.now f.turn i }
{
    f.y.abs_diff(o[2 * i + (1 - f.word as usize)])
}

// The vertex after i.
pub fn next(n: usize, i: usize) -> usize
    requires { i < n }
    ensures { (result ≡ after n i) × (result < n) }
{
    if i + 1 == n { 0 } else { i + 1 }
}

// The edge between two vertices, the left end first.
pub fn side_of(u: Vertex, v: Vertex) -> Side
    ensures { edge_of result.xl result.yl result.xr result.yr ≡ edge_between u.x u.y v.x v.y }
{
    if u.x <= v.x {
        Side {
            xl: u.x,
            yl: u.y,
            xr: v.x,
            yr: v.y,
        }
    } else {
        Side {
            xl: v.x,
            yl: v.y,
            xr: u.x,
            yr: u.y,
        }
    }
}

// An outline read in a turn. No turned outline is written out.
#[derive(Clone, Copy)]
pub struct Turned<'a> {
    pub words: &'a [u16],
    pub frame: Frame,
    ghost lent: { Lent words.now },
    ghost framed: { FrameOf words.now frame },
}

impl<'a> Turned<'a> {
    // The outline in turn t, by its bounds.
    pub fn new(o: &'a [u16], b: Bounds, t: u16) -> Turned<'a>
        requires lent { Lent o.now }
        requires bounds { BoundsOf o.now b }
        requires turn { t ≤ 3 }
        ensures { (result.words.now ≡ o.now) × (result.frame.turn ≡ t) }
    {
        Turned {
            words: o,
            frame: frame_of(o, b, t),
        }
    }

    // How many vertices, and how many edges, it has.
    pub fn sides(self) -> usize
        ensures { result ≡ sides self.entry.words.now }
    {
        self.words.len() / 2
    }

    // The vertex after i.
    pub fn next(self, i: usize) -> usize
        requires { i < sides self.words.now }
        ensures { (result ≡ after (sides self.entry.words.now) i) × (result < sides self.entry.words.now) }
    {
        next(self.sides(), i)
    }

    pub fn x(self, i: usize) -> u16
        requires { i < sides self.words.now }
        ensures { result ≡ read_x self.entry.words.now self.entry.frame.turn i }
    {
        x_at(self.words, self.frame, i)
    }

    pub fn y(self, i: usize) -> u16
        requires { i < sides self.words.now }
        ensures { result ≡ read_y self.entry.words.now self.entry.frame.turn i }
    {
        y_at(self.words, self.frame, i)
    }

    // Vertex i of the turned outline.
    pub fn vertex(self, i: usize) -> Vertex
        requires { i < sides self.words.now }
        ensures { VertexOf self.entry.words.now self.entry.frame.turn i result.x result.y }
    {
        Vertex {
            x: self.x(i),
            y: self.y(i),
        }
    }

    // Edge i of the turned outline.
    pub fn side(self, i: usize) -> Side
        requires { i < sides self.words.now }
        ensures { SideOf self.entry.words.now self.entry.frame.turn i result.xl result.yl result.xr result.yr }
    {
        side_of(self.vertex(i), self.vertex(self.next(i)))
    }
}
