// Reading a job sheet: its questions, and its cut list as words of the output.
#![tactic(auto)]

ghost use Rattle.std.specs.Prelude.{true, ◌≡◌, ◌≤◌, length};
ghost use Rattle.defs.specs.Meaning.Sheet.{sheet_n};
ghost use Rattle.defs.specs.Computing.Sheets.{ReadStep};
ghost use Rattle.sheets.proofs.Answers.{figures_of};
ghost use Rattle.reads.specs.Steps.{Begun, Counted, Passed, gap_of, fourth_of, JobAsked};

use defs::{Figures, Refusal, refused};

// W, R and N of a sheet.
pub fn figures_of(sheet: &[u8]) -> Figures
    requires { 16 ≤ length sheet.now }
    ensures { result ≡ figures_of sheet.now }
{
    Figures {
        width: fields::number(sheet, fields::WIDTH),
        resolution: fields::number(sheet, fields::RESOLUTION),
        columns: fields::number(sheet, fields::COLUMNS),
    }
}

// Question 21, where a strip is lent.
fn gap_asked(strip: Option<(u16, usize)>) -> bool
    ensures { result ≡ gap_of strip }
{
    match strip {
        None => true,
        Some((gap, n)) => limits::gap_fits(gap),
    }
}

// Question 4, where a strip is lent.
fn fourth(strip: Option<(u16, usize)>, columns: u16) -> bool
    ensures { result ≡ fourth_of strip columns }
{
    match strip {
        None => true,
        Some((gap, n)) => limits::length_fits(columns, n),
    }
}

// Questions 7 to 11 of a sheet that passes those before.
fn ask_pieces(sheet: &[u8], count: usize) -> Result<usize, Refusal>
    requires { Counted sheet.now count }
    ensures { JobAsked sheet.now true true result }
{
    let v = fields::number(sheet, fields::VERTICES) as usize;
    pieceno::first_no(sheet, v)?;
    Ok(count)
}

// Questions 6 to 11 of a sheet that passes those before.
fn ask_chain(sheet: &[u8]) -> Result<usize, Refusal>
    requires { Begun sheet.now }
    ensures { JobAsked sheet.now true true result }
{
    match records::piece_chain(sheet) {
        Some(count) => ask_pieces(sheet, count),
        None => refused(6, 0),
    }
}

// Questions 1 to 3, 16 and 17, 21 and 4 where a strip is lent, and 6 to 11.
pub fn ask(sheet: &[u8], strip: Option<(u16, usize)>) -> Result<usize, Refusal>
    ensures { JobAsked sheet.now (gap_of strip) (fourth_of strip (sheet_n sheet.now)) result }
{
    if !fields::begins(sheet) {
        return refused(1, 0);
    }
    if !fields::fits(sheet) {
        return refused(2, 0);
    }
    let f = figures_of(sheet);
    limits::limits(f.width, f.resolution, f.columns)?;
    if !gap_asked(strip) {
        return refused(21, 0);
    }
    if !fourth(strip, f.columns) {
        return refused(4, 0);
    }
    ask_chain(sheet)
}

// Question 15 of a sheet that passes the others; then its cut list.
fn read_list(sheet: &[u8], count: usize, out: &mut [u16]) -> Result<Figures, Refusal>
    requires { Passed sheet.now count }
    ensures { ReadStep sheet.now out.old result out.new }
{
    let v = fields::number(sheet, fields::VERTICES) as usize;
    let n = cutlist::list_words(sheet, v);
    if out.len() < n {
        return refused(15, 0);
    }
    cutlist::put_list(sheet, v, count as u16, out);
    Ok(figures_of(sheet))
}

// The read call. Nothing is written before every question is answered.
pub fn read(sheet: &[u8], out: &mut [u16]) -> Result<Figures, Refusal>
    ensures { ReadStep sheet.now out.old result out.new }
{
    let count = ask(sheet, None)?;
    read_list(sheet, count, out)
}
