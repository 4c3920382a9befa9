// The steps of a path, from an outline's units and to bytes.
#![tactic(auto)]

ghost use Rattle.std.specs.Prelude.{◌≡◌, not, ◌++◌, ◌+◌, ◌≤◌, ◌<◌, T, length};
ghost use Rattle.std.proofs.lemmas.List.Edits.{sets};
ghost use Rattle.std.specs.Float.{binary32};
ghost use Rattle.std.specs.Float.Ieee.{is_nan, to_bits};
ghost use Rattle.pathdefs.specs.Computing.Paths.{four_bytes, vertex_bytes};
ghost use Rattle.stepbytes.specs.Draws.{bytes_in, Draws, Numbers};

use pathdefs::{Point, Step};

// The bits of a coordinate, low byte first.
fn put_bits(out: &mut [u8], at: usize, n: u32)
    requires { at + 3 < length out.old }
    ensures { out.new ≡ sets out.old at (four_bytes n) }
{
    out[at..at + 4].copy_from_slice(&n.to_le_bytes());
}

// Two coordinates.
fn put_point(out: &mut [u8], at: usize, p: Point)
    requires fact_1 { at + 7 < length out.old }
    requires fact_2 { T (not (is_nan p.x)) }
    requires fact_3 { T (not (is_nan p.y)) }
    ensures { out.new ≡ sets out.old at (four_bytes (to_bits binary32 p.x) ++ four_bytes (to_bits binary32 p.y)) }
{
    put_bits(out, at, f32::to_bits(p.x));
    put_bits(out, at + 4, f32::to_bits(p.y));
}

// A step's byte, and its coordinates.
pub fn put_step(out: &mut [u8], at: usize, s: Step)
    requires fact_1 { at + length (bytes_in s) ≤ length out.old }
    requires fact_2 { Numbers s }
    ensures { out.new ≡ sets out.old at (bytes_in s) }
{
    match s {
        Step::Move { x, y } => {
            out[at] = pathsteps::MOVE;
            put_point(out, at + 1, Point { x, y });
        }
        Step::Line { x, y } => {
            out[at] = pathsteps::LINE;
            put_point(out, at + 1, Point { x, y });
        }
        Step::Close => {
            out[at] = pathsteps::CLOSE;
        }
    }
}

// The move to a vertex.
pub fn move_to(x: u16, y: u16) -> Step
    ensures { Draws result (vertex_bytes 1 x y) }
{
    let u = millimetres::millimetres(x);
    let v = millimetres::millimetres(y);
    Step::Move { x: u, y: v }
}

// The line to a vertex.
pub fn line_to(x: u16, y: u16) -> Step
    ensures { Draws result (vertex_bytes 2 x y) }
{
    let u = millimetres::millimetres(x);
    let v = millimetres::millimetres(y);
    Step::Line { x: u, y: v }
}
