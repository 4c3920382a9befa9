// A job that passes its questions: its pieces on two tables that take turns, so that nothing is decoded and the strip is written once.
#![tactic(auto)]

ghost use Rattle.std.specs.Prelude.{[], length, get_or};
ghost use Rattle.defs.specs.Computing.Calls.{Left};
ghost use Rattle.tables.specs.Flat.{table_of};
ghost use Rattle.job.specs.Jobs.{StripReady, JobPassed, Fresh, JobDone};

use defs::{Figures, Totals};

// The strip that holds the runs of a table.
fn write_strip(strip: &mut [u16], g: Figures, gap: u16, first: &[u16], lows: &[u16], highs: &[u16])
    requires { StripReady first.now lows.now highs.now g.width g.resolution g.columns gap (length strip.old) }
    ensures { Left g.width g.resolution g.columns gap (length strip.old)
        (λ k. get_or (table_of first.now lows.now highs.now g.columns) k []) strip.new }
{
    let n = first[g.columns as usize] as usize;
    encode::encode(strip, g, gap, first, lows, highs, n);
}

// Lays the pieces, from empty tables on, and writes the strip.
fn lay_all(
    sheet: &[u8],
    g: Figures,
    gap: u16,
    strip: &mut [u16],
    first: &mut [u16],
    lows: &mut [u16],
    highs: &mut [u16],
    first2: &mut [u16],
    lows2: &mut [u16],
    highs2: &mut [u16],
    out: &mut [u16],
    work: &mut [u16],
) -> Totals
    requires fact_1 { JobPassed sheet.now gap (length strip.old) (length out.old) }
    requires fact_2 { Fresh sheet.now first.old lows.old highs.old first2.old lows2.old highs2.old g.width g.resolution g.columns gap (length strip.old) }
    ensures { JobDone sheet.now gap strip.old out.old (length work.old) result strip.new out.new }
{
    let v = fields::number(sheet, fields::VERTICES) as usize;
    let q = limits::records_of(g.columns, strip.len());
    let t = sequence::lay_chain(
        sheet, v, g, gap, q, first, lows, highs, first2, lows2, highs2, out, work,
    );
    if t.second {
        write_strip(strip, g, gap, first2, lows2, highs2);
    } else {
        write_strip(strip, g, gap, first, lows, highs);
    }
    Totals {
        placed: t.placed,
        used: t.used,
    }
}

// The tables, and the job on them.
pub fn lay_tables(
    sheet: &[u8],
    gap: u16,
    strip: &mut [u16],
    out: &mut [u16],
    work: &mut [u16],
) -> Totals
    requires { JobPassed sheet.now gap (length strip.old) (length out.old) }
    ensures { JobDone sheet.now gap strip.old out.old (length work.old) result strip.new out.new }
{
    let g = reads::figures_of(sheet);
    let mut first = [0u16; limits::FIRSTS];
    let mut lows = [0u16; position::NEXT_RUNS];
    let mut highs = [0u16; position::NEXT_RUNS];
    let mut first2 = [0u16; limits::FIRSTS];
    let mut lows2 = [0u16; position::NEXT_RUNS];
    let mut highs2 = [0u16; position::NEXT_RUNS];
    lay_all(
        sheet,
        g,
        gap,
        strip,
        &mut first,
        &mut lows,
        &mut highs,
        &mut first2,
        &mut lows2,
        &mut highs2,
        out,
        work,
    )
}
