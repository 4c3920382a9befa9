// Writing an outline as a path of the drawing program.
#![tactic(auto)]

ghost use Rattle.std.specs.Prelude.{◌≡◌, true, drop};
ghost use Rattle.std.proofs.lemmas.List.Edits.{sets};
ghost use Rattle.defs.specs.Computing.Calls.{q7b, q8b};
ghost use Rattle.pathdefs.specs.Meaning.Path.{step_bytes};
ghost use Rattle.pathdefs.specs.Computing.Paths.{lines_bytes, path_bytes, PathWriteStep};
ghost use Rattle.writepath.specs.Fits.{PathFits};

use defs::{Refusal, refused};
use pathdefs::Step;

// The lines to the vertices after the first, and the close.
fn put_lines(outline: &[u16], out: &mut [u8])
    requires { PathFits outline.now out.old }
    ensures { out.new ≡ sets out.old step_bytes (lines_bytes (drop 2 outline.now)) }
{
    let n = outline.len() / 2;
    for i in 1..n {
        let s = stepbytes::line_to(outline[2 * i], outline[2 * i + 1]);
        stepbytes::put_step(out, pathsteps::STEP_BYTES * i, s);
    }
    stepbytes::put_step(out, pathsteps::STEP_BYTES * n, Step::Close);
}

// The move to the first vertex, and what follows.
fn put_path(outline: &[u16], out: &mut [u8])
    requires { PathFits outline.now out.old }
    ensures { out.new ≡ sets out.old 0 (path_bytes outline.now) }
{
    let s = stepbytes::move_to(outline[0], outline[1]);
    stepbytes::put_step(out, 0, s);
    put_lines(outline, out);
}

// Question 15 of an outline that passes 7 and 8, and the path.
fn write_passed(outline: &[u16], out: &mut [u8]) -> Result<u32, Refusal>
    requires { (q7b outline.now ≡ true) × (q8b outline.now ≡ true) }
    ensures { PathWriteStep outline.now out.old result out.new }
{
    let size = pathsteps::STEP_BYTES * (outline.len() / 2) + 1;
    if out.len() < size {
        return refused(15, 0);
    }
    put_path(outline, out);
    Ok(size as u32)
}

// The call that writes a path. Nothing is written before every question is answered.
pub fn write_path(outline: &[u16], out: &mut [u8]) -> Result<u32, Refusal>
    ensures { PathWriteStep outline.now out.old result out.new }
{
    if let Err(n) = checks::bounds(outline) {
        return refused(n, 1);
    }
    write_passed(outline, out)
}
