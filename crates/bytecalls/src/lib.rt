// Open and lay on buffers passed as bytes: the same calls on local words. Strip and output are copied, a work buffer is not (see byteput).
#![tactic(auto)]

ghost use Rattle.std.specs.Prelude.{◌≡◌, ◌/◌, ◌≤◌, min, length};
ghost use Rattle.defs.specs.Computing.Bytes.{most_work, OpenBytesStep, LayBytesStep};
ghost use Rattle.bytecalls.specs.Steps.{LaidBytes};

use defs::{Refusal, Totals};

// Words of the entries of 200 pieces.
const OUTPUT_ROOM: usize = 800;

// Opens the words, and puts them into the strip. No old word of the strip is looked at.
fn open_words(
    width: u16,
    resolution: u16,
    columns: u16,
    gap: u16,
    words: &mut [u16],
    strip: &mut [u8],
) -> Result<(), Refusal>
    requires { length words.old ≡ min (length strip.old / 2) 68102 }
    ensures { OpenBytesStep width resolution columns gap strip.old result strip.new }
{
    open::open(width, resolution, columns, gap, words)?;
    bytewords::put_words(words, strip);
    Ok(())
}

// The open call.
pub fn open_bytes(
    width: u16,
    resolution: u16,
    columns: u16,
    gap: u16,
    strip: &mut [u8],
) -> Result<(), Refusal>
    ensures { OpenBytesStep width resolution columns gap strip.old result strip.new }
{
    let mut words = [0u16; byteput::STRIP_ROOM];
    let n = (strip.len() / 2).min(byteput::STRIP_ROOM);
    open_words(width, resolution, columns, gap, &mut words[..n], strip)
}

// Copies the output into words, lays on these, and puts the words of strip and output back. No old word of the strip is looked at.
fn lay_words(
    sheet: &[u8],
    gap: u16,
    strip: &mut [u8],
    output: &mut [u8],
    words: &mut [u16],
    entries: &mut [u16],
    work: &mut [u16],
) -> Result<Totals, Refusal>
    requires fact_1 { length words.old ≡ min (length strip.old / 2) 68102 }
    requires fact_2 { length entries.old ≡ min (length output.old / 2) 800 }
    ensures { LaidBytes sheet.now gap strip.old output.old (length work.old) result strip.new output.new }
{
    bytewords::take_words(output, entries);
    let t = laying::lay(sheet, gap, words, entries, work)?;
    bytewords::put_words(words, strip);
    bytewords::put_words(entries, output);
    Ok(t)
}

// Lends words for strip and output.
fn lay_with(
    sheet: &[u8],
    gap: u16,
    strip: &mut [u8],
    output: &mut [u8],
    work: &mut [u16],
) -> Result<Totals, Refusal>
    ensures { LaidBytes sheet.now gap strip.old output.old (length work.old) result strip.new output.new }
{
    let mut words = [0u16; byteput::STRIP_ROOM];
    let mut entries = [0u16; OUTPUT_ROOM];
    let n = (strip.len() / 2).min(byteput::STRIP_ROOM);
    let m = (output.len() / 2).min(OUTPUT_ROOM);
    lay_words(
        sheet,
        gap,
        strip,
        output,
        &mut words[..n],
        &mut entries[..m],
        work,
    )
}

// Lends a work buffer of at most `ROOM` words, where no more of them are used.
fn lay_in<const ROOM: usize>(
    sheet: &[u8],
    gap: u16,
    strip: &mut [u8],
    output: &mut [u8],
    room: usize,
) -> Result<Totals, Refusal>
    requires fact_1 { min room ROOM ≡ min room most_work }
    requires fact_2 { ROOM ≤ most_work }
    ensures { LaidBytes sheet.now gap strip.old output.old (min room most_work) result strip.new output.new }
{
    let mut work = [0u16; ROOM];
    let n = room.min(ROOM);
    lay_with(sheet, gap, strip, output, &mut work[..n])
}

// The lay call. It calls itself as byteput::put_copy does, and for its reason.
pub fn lay_bytes(
    sheet: &[u8],
    gap: u16,
    strip: &mut [u8],
    output: &mut [u8],
    work: &mut [u8],
) -> Result<Totals, Refusal>
    ensures { LayBytesStep sheet.now gap strip.old output.old work.old result strip.new output.new work.new }
{
    let n = work.len() / 2;
    if 2 * byteput::MOST_WORK <= n {
        let a = lay_bytes(sheet, gap, strip, output, &mut work[..n]);
        bytewords::clear_words(work);
        return a;
    }
    bytewords::clear_words(work);
    if n <= byteput::SMALL_WORK {
        return lay_in::<{ byteput::SMALL_WORK }>(sheet, gap, strip, output, n);
    }
    lay_in::<{ byteput::MOST_WORK }>(sheet, gap, strip, output, n)
}
