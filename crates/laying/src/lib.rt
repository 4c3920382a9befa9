// The lay call: all questions of a job, then its pieces, one after another, on a strip that is opened for them.
#![tactic(auto)]

ghost use Rattle.std.specs.Prelude.{◌≡◌, ◌*◌, length};
ghost use Rattle.defs.specs.Meaning.Sheet.{sheet_n};
ghost use Rattle.defs.specs.Computing.Words.{gapb, lengthb};
ghost use Rattle.defs.specs.Computing.Lay.{LayStep};
ghost use Rattle.reads.specs.Steps.{JobPasses};
ghost use Rattle.laying.specs.Jobs.{LayAnswered};

use defs::{Refusal, Totals, refused};

// Question 15 of a job of `count` pieces that passes the others; then its pieces.
fn lay_asked(
    sheet: &[u8],
    gap: u16,
    count: usize,
    strip: &mut [u16],
    out: &mut [u16],
    work: &mut [u16],
) -> Result<Totals, Refusal>
    requires { JobPasses sheet.now (gapb gap) (lengthb (sheet_n sheet.now) (length strip.old)) count }
    ensures { LayAnswered sheet.now gap strip.old out.old (length work.old) result strip.new out.new }
{
    if out.len() < numbers::ENTRY_WORDS * count {
        return refused(15, 0);
    }
    Ok(job::lay_tables(sheet, gap, strip, out, work))
}

// All questions, and the job. Leaves words in the work buffer.
fn lay_sheet(
    sheet: &[u8],
    gap: u16,
    strip: &mut [u16],
    out: &mut [u16],
    work: &mut [u16],
) -> Result<Totals, Refusal>
    ensures { LayAnswered sheet.now gap strip.old out.old (length work.old) result strip.new out.new }
{
    let count = reads::ask(sheet, Some((gap, strip.len())))?;
    lay_asked(sheet, gap, count, strip, out, work)
}

// The lay call.
pub fn lay(
    sheet: &[u8],
    gap: u16,
    strip: &mut [u16],
    out: &mut [u16],
    work: &mut [u16],
) -> Result<Totals, Refusal>
    ensures { LayStep sheet.now gap strip.old out.old work.old result strip.new out.new work.new }
{
    let a = lay_sheet(sheet, gap, strip, out, work);
    words::clear(work);
    a
}
