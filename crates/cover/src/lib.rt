// The cells of an outline in a turn: cover.
#![tactic(auto)]

ghost use Rattle.std.specs.Prelude.{◌≡◌};
ghost use Rattle.std.proofs.lemmas.List.Edits.{sets};
ghost use Rattle.defs.specs.Meaning.Outline.{KeepsOrder};
ghost use Rattle.defs.specs.Meaning.Turn.{extent_x, extent_y};
ghost use Rattle.defs.specs.Computing.Cells.{piece_runs};
ghost use Rattle.defs.specs.Computing.Calls.{runs_words, CoverStep};
ghost use Rattle.outline.specs.Shape.{shape};
ghost use Rattle.checks.specs.Says.{Says};
ghost use Rattle.cover.specs.Turn.{turn_no};
ghost use Rattle.cover.specs.Written.{CoverRuns, Counted};

use defs::{Refusal, refused};
use outline::{Bounds, Extent, Turned};

// Runs that are kept while they are counted, and their words.
const KEPT_RUNS: usize = 512;

const KEPT_WORDS: usize = 1536;

// Questions 7 to 10 with turn t alone allowed, 9 of the turn.
pub fn order(o: &[u16], t: u16) -> Result<Bounds, u16>
    ensures { Says o.now (turn_no o.now t) result }
{
    if numbers::MOST_TURN < t {
        return asked::order(o, false, 0);
    }
    asked::order(o, true, 1 << t)
}

// The k runs of an outline at the start of the output: copied where they were kept, and else worked out again.
fn write_runs(o: Turned, r: u16, g: u16, w: u16, k: usize, kept: &[u16], out: &mut [u16])
    requires wide { w ≡ extent_x o.words.now o.frame.turn }
    requires ordered { KeepsOrder (shape o) }
    requires counted { Counted o.words.now o.frame.turn r g k kept.now out.old }
    ensures { out.new ≡ sets out.old 0 (runs_words 0 (piece_runs o.entry.words.now o.entry.frame.turn r g)) }
{
    if KEPT_RUNS < k {
        cells::put_runs(o, r, g, w, out);
        return;
    }
    words::copy_in(&kept[..3 * k], out, 0);
}

// Questions 11 and 12 of an outline that passes 7 to 10 in the frame's turn; then its runs. Up to KEPT_RUNS runs are kept while they are counted,
// since nothing may be written before 12 is answered.
fn cover_runs(o: Turned, e: Extent, r: u16, g: u16, out: &mut [u16]) -> Result<u32, Refusal>
    requires limits { CoverRuns o.words.now o.frame.turn r g }
    requires extent { (e.w ≡ extent_x o.words.now o.frame.turn) × (e.h ≡ extent_y o.words.now o.frame.turn) }
    ensures { CoverStep o.entry.words.now o.entry.frame.turn r g out.old result out.new }
{
    let w = e.w;
    let mut kept = [0u16; KEPT_WORDS];
    let k = cells::put_runs(o, r, g, w, &mut kept);
    if k == 0 {
        return refused(11, 1);
    }
    if out.len() / 3 < k {
        return refused(12, 1);
    }
    write_runs(o, r, g, w, k, &kept, out);
    Ok(k as u32)
}

// The cover call.
pub fn cover(o: &[u16], t: u16, r: u16, g: u16, out: &mut [u16]) -> Result<u32, Refusal>
    ensures { CoverStep o.now t r g out.old result out.new }
{
    if !limits::resolution_fits(r) {
        return refused(16, 0);
    }
    if !limits::gap_fits(g) {
        return refused(21, 0);
    }
    match order(o, t) {
        Err(n) => refused(n, 1),
        Ok(b) => {
            let e = outline::extent_of(o, b, t);
            cover_runs(Turned::new(o, b, t), e, r, g, out)
        }
    }
}
