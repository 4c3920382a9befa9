// Writing a cut list as a job sheet.
#![tactic(auto)]

ghost use Rattle.std.specs.Prelude.{◌≡◌, ◌+◌, ◌*◌, ◌<◌};
ghost use Rattle.defs.specs.Computing.Sheets.{q6_listb, WriteStep};
ghost use Rattle.writes.specs.Steps.{Begun, Passed};

use defs::{Refusal, refused};

// Question 6: a count word of at most 200.
fn count_fits(list: &[u16]) -> bool
    ensures { result ≡ q6_listb list.now }
{
    1 <= list.len() && list[0] as usize <= records::MOST_PIECES
}

// Questions 2 and 15 of a list of v vertices that passes the others; then its sheet.
fn write_sheet(
    w: u16,
    r: u16,
    n: u16,
    list: &[u16],
    v: usize,
    out: &mut [u8],
) -> Result<u32, Refusal>
    requires { Passed w r n list.now v }
    ensures { WriteStep w r n list.now out.old result out.new }
{
    let size = fields::FRONT_BYTES + fields::RECORD_BYTES * (v + list[0] as usize);
    if fields::MOST_BYTES < size {
        return refused(2, 0);
    }
    if out.len() < size {
        return refused(15, 0);
    }
    sheetbytes::put_sheet(w, r, n, list, v, out);
    Ok(size as u32)
}

// Questions 7 to 11 of a list that passes 3, 16, 17 and 6, and what follows.
fn write_pieces(w: u16, r: u16, n: u16, list: &[u16], out: &mut [u8]) -> Result<u32, Refusal>
    requires { Begun w r n list.now }
    ensures { WriteStep w r n list.now out.old result out.new }
{
    let v = lists::first_no(list)?;
    write_sheet(w, r, n, list, v, out)
}

// The write call. Nothing is written before every question is answered.
pub fn write(w: u16, r: u16, n: u16, list: &[u16], out: &mut [u8]) -> Result<u32, Refusal>
    ensures { WriteStep w r n list.now out.old result out.new }
{
    limits::limits(w, r, n)?;
    if !count_fits(list) {
        return refused(6, 0);
    }
    write_pieces(w, r, n, list, out)
}
