// What program `lay` prints, as bytes of a buffer.
#![tactic(auto)]

ghost use Rattle.std.specs.Prelude.{◌≡◌, ◌≤◌, length, take};
ghost use Rattle.defs.specs.Computing.Sheets.{piece_records};
ghost use Rattle.defs.specs.Computing.Text.{lay_text};
ghost use Rattle.lent.specs.Strips.{StripFor};
ghost use Rattle.text.specs.Lent.{Answered, Passes, Shows};

use defs::{Refusal, Totals};

// The text of every job fits.
pub const ROOM: usize = 8192;

// How many pieces the sheet has, which passes 2 and 6.
fn pieces_of(sheet: &[u8]) -> usize
    requires { Passes sheet.now }
    ensures { result ≡ length (piece_records sheet.now) }
{
    match records::piece_chain(sheet) {
        Some(n) => n,
        None => 0,
    }
}

// What is printed of an answer and its output.
fn put_answer(sheet: &[u8], words: &[u16], a: Result<Totals, Refusal>, out: &mut [u8]) -> usize
    requires answered { Answered sheet.now words.now a }
    requires room { 8192 ≤ length out.old }
    ensures { Shows sheet.now out.new result }
{
    match a {
        Ok(t) => {
            let f = reads::figures_of(sheet);
            layout::put_laid(out, f, words, pieces_of(sheet), t)
        }
        Err(r) => layoutlines::put_refused(out, r),
    }
}

// The job on lent buffers.
fn lay_lent(
    sheet: &[u8],
    strip: &mut [u16],
    words: &mut [u16],
    work: &mut [u16],
    out: &mut [u8],
) -> usize
    requires serves { StripFor sheet.now (length strip.old) }
    requires entries { length words.old ≡ 800 }
    requires work { length work.old ≡ 9000 }
    requires room { 8192 ≤ length out.old }
    ensures { Shows sheet.now out.new result }
{
    let a = laying::lay(sheet, 0, strip, words, work);
    put_answer(sheet, words, a, out)
}

// Lends output and work buffer.
fn lay_strip(sheet: &[u8], strip: &mut [u16], out: &mut [u8]) -> usize
    requires serves { StripFor sheet.now (length strip.old) }
    requires room { 8192 ≤ length out.old }
    ensures { Shows sheet.now out.new result }
{
    let mut words = [0u16; lent::ENTRIES];
    let mut work = [0u16; lent::WORK];
    lay_lent(sheet, strip, &mut words, &mut work, out)
}

// Lends as much of the strip as the sheet is to have.
fn lay_part(sheet: &[u8], strip: &mut [u16], out: &mut [u8]) -> usize
    requires whole { length strip.old ≡ 20101 }
    requires room { 8192 ≤ length out.old }
    ensures { Shows sheet.now out.new result }
{
    let n = lent::strip_words(sheet);
    lay_strip(sheet, &mut strip[..n], out)
}

// What program `lay` prints for this standard input, at the start of the output. Answers the number of its bytes.
pub fn lay_text(sheet: &[u8], out: &mut [u8]) -> usize
    requires { 8192 ≤ length out.old }
    ensures { (take result out.new ≡ lay_text sheet.now) × (result ≤ length out.new) }
{
    let mut strip = [0u16; lent::STRIP];
    lay_part(sheet, &mut strip, out)
}
