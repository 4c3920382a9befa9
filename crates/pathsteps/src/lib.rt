// The steps of a path, read from its bytes; the units of a step's coordinates.
#![tactic(auto)]

ghost use Rattle.std.specs.Prelude.{◌≡◌, ◌+◌, ◌<◌, eqb, length, drop};
ghost use Rattle.pathdefs.specs.Computing.Paths.{bits_at};
ghost use Rattle.pathsteps.specs.Found.{point_at, step_at, kind_at, vertex_of, vertex_in, VertexStep, vertex_here};

use pathdefs::{Point, Step};

// "Each one byte: 1 move, 2 line, 3 close."
pub const MOVE: u8 = 1;

pub const LINE: u8 = 2;

pub const CLOSE: u8 = 3;

// The bytes of a move or a line.
pub const STEP_BYTES: usize = 9;

// The bits of a coordinate, low byte first.
pub fn bits(path: &[u8], at: usize) -> u32
    requires { at + 3 < length path.now }
    ensures { result ≡ bits_at path.now at }
{
    u32::from_le_bytes([path[at], path[at + 1], path[at + 2], path[at + 3]])
}

// Two coordinates.
pub fn point_at(path: &[u8], at: usize) -> Point
    requires { at + 7 < length path.now }
    ensures { result ≡ point_at path.now at }
{
    let x = millimetres::float_of(bits(path, at));
    let y = millimetres::float_of(bits(path, at + 4));
    Point { x, y }
}

pub fn step_at(path: &[u8], at: usize) -> Option<Step>
    ensures { result ≡ step_at path.now at }
{
    if path.len() <= at {
        return None;
    }
    let kind = path[at];
    if kind == CLOSE {
        return Some(Step::Close);
    }
    if path.len() - at < STEP_BYTES {
        return None;
    }
    let Point { x, y } = point_at(path, at + 1);
    match kind {
        MOVE => Some(Step::Move { x, y }),
        LINE => Some(Step::Line { x, y }),
        _ => None,
    }
}

// A point in units, where both coordinates are accepted.
pub fn converted(p: Point) -> Option<(u16, u16)>
    ensures { result ≡ vertex_of p.x p.y }
{
    let x = millimetres::units_of(p.x)?;
    let y = millimetres::units_of(p.y)?;
    Some((x, y))
}

fn vertex_of(s: Step) -> Option<(u16, u16)>
    ensures { result ≡ vertex_in s }
{
    match s {
        Step::Move { x, y } => converted(Point { x, y }),
        Step::Line { x, y } => converted(Point { x, y }),
        Step::Close => None,
    }
}

// Whether the step at a byte of a path is a move.
pub fn is_move(path: &[u8], at: usize) -> bool
    ensures { result ≡ eqb (kind_at path.now at) 1 }
{
    matches!(step_at(path, at), Some(Step::Move { .. }))
}

// Whether it is a line.
pub fn is_line(path: &[u8], at: usize) -> bool
    ensures { result ≡ eqb (kind_at path.now at) 2 }
{
    matches!(step_at(path, at), Some(Step::Line { .. }))
}

// Whether it is the close.
pub fn is_close(path: &[u8], at: usize) -> bool
    ensures { result ≡ eqb (kind_at path.now at) 3 }
{
    matches!(step_at(path, at), Some(Step::Close))
}

// The vertex of the move or the line at a byte of a path.
pub fn vertex_at(path: &[u8], at: usize) -> Option<(u16, u16)>
    requires { VertexStep path.now at }
    ensures { result ≡ vertex_here (drop at path.now) }
{
    vertex_of(step_at(path, at)?)
}
