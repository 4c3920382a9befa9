// Reading a path of the drawing program: its shape, its coordinates, and the outline that it gives as words of the output.
#![tactic(auto)]

ghost use Rattle.std.specs.Prelude.{◌≡◌, ◌-◌, ◌*◌, ◌≤◌, length, drop};
ghost use Rattle.pathdefs.specs.Meaning.Path.{step_bytes};
ghost use Rattle.pathdefs.specs.Computing.Paths.{linesb, PathReadStep};
ghost use Rattle.readpath.specs.Passed.{Long, Shapes, Shaped, Accepts};

use defs::{Refusal, refused};

// "A path is one move, 2 to 63 lines, one close": its vertices.
pub const LEAST_VERTICES: usize = 3;

// Lines and then the close after the move, in a path of n vertices by its length.
fn lines_then_close(path: &[u8], n: usize) -> bool
    requires { Long path.now n }
    ensures { result ≡ linesb (n - 1) (drop step_bytes path.now) }
{
    for i in 1..n {
        if !pathsteps::is_line(path, pathsteps::STEP_BYTES * i) {
            return false;
        }
    }
    pathsteps::is_close(path, pathsteps::STEP_BYTES * n)
}

// Question 19, with the number of vertices.
fn shape_of(path: &[u8]) -> Option<usize>
    ensures { Shapes path.now result }
{
    let n = path.len() / pathsteps::STEP_BYTES;
    if path.len() != pathsteps::STEP_BYTES * n + 1 {
        return None;
    }
    if n < LEAST_VERTICES || numbers::MOST_VERTICES < n {
        return None;
    }
    if !pathsteps::is_move(path, 0) {
        return None;
    }
    if !lines_then_close(path, n) {
        return None;
    }
    Some(n)
}

// Question 20 of a path that passes 19; its words, where it passes.
fn accepts(path: &[u8], n: usize, words: &mut [u16]) -> bool
    requires fact_1 { Shaped path.now n }
    requires fact_2 { 2 * n ≤ length words.old }
    ensures { Accepts path.now n result words.new }
{
    for i in 0..n {
        let Some((x, y)) = pathsteps::vertex_at(path, pathsteps::STEP_BYTES * i) else {
            return false;
        };
        words[2 * i] = x;
        words[2 * i + 1] = y;
    }
    true
}

// Questions 20 and 15 of a path that passes 19; then its outline. The words are kept until 15 is answered.
fn read_shaped(path: &[u8], n: usize, out: &mut [u16]) -> Result<u32, Refusal>
    requires { Shaped path.now n }
    ensures { PathReadStep path.now out.old result out.new }
{
    let mut kept = [0u16; numbers::MOST_WORDS];
    if !accepts(path, n, &mut kept) {
        return refused(20, 0);
    }
    if out.len() < 2 * n {
        return refused(15, 0);
    }
    words::copy_in(&kept[..2 * n], out, 0);
    Ok((2 * n) as u32)
}

// The call that reads a path. Nothing is written before every question is answered.
pub fn read_path(path: &[u8], out: &mut [u16]) -> Result<u32, Refusal>
    ensures { PathReadStep path.now out.old result out.new }
{
    let Some(n) = shape_of(path) else {
        return refused(19, 0);
    };
    read_shaped(path, n, out)
}
