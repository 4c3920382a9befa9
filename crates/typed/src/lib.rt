// The sheet of a text that a person typed, with notes on what it draws twice, or what is wrong with the text.
#![tactic(auto)]

ghost use Rattle.std.specs.Prelude.{◌+◌, ◌≤◌, length, IfOk, IfErr};
ghost use Rattle.typed.specs.Fits.{Fits};

use defs::Refusal;
use lines::{Job, Misread};
use std::fs::Files;
use tokens::fault::Fault;

// What stands at the start of the buffers: the bytes of a sheet and of the notes on it; and the gap of its job.
#[derive(Clone, Copy, Debug, PartialEq, Eq)]
pub struct Sheet {
    pub bytes: usize,
    pub notes: usize,
    pub gap: u16,
}

// Why a text gives no sheet: it cannot be read, or its job cannot be written. That is told with the line that it is about, or 0.
#[derive(Clone, Copy)]
enum Failure {
    Misread(Misread),
    Refused(Refusal, u16),
}

impl From<Misread> for Failure {
    fn from(m: Misread) -> Failure {
        Failure::Misread(m)
    }
}

// What is wrong, to the end of the line, if there is room for it.
fn put_fault(out: &mut [u8], at: usize, fault: Fault) -> usize
    requires { at ≤ length out.old }
    ensures { result ≤ length out.new }
{
    let message = fault.message().as_bytes();
    if out.len() - at <= message.len() {
        return at;
    }
    let end = print::put(out, at, message);
    print::end_line(out, end)
}

// What is wrong with a text, after the number of its line.
fn put_misread(out: &mut [u8], m: Misread) -> usize
    requires { 128 ≤ length out.old }
    ensures { result ≤ length out.new }
{
    if m.line == 0 {
        return put_fault(out, 0, m.fault);
    }
    let a = print::put_words(out, 0, b"line", &[m.line]);
    let b = print::put(out, a, b": ");
    put_fault(out, b, m.fault)
}

// A refusal, and after it the number of its line.
fn put_refused(out: &mut [u8], r: Refusal, line: u16) -> usize
    requires { 128 ≤ length out.old }
    ensures { result ≤ length out.new }
{
    let a = print::put_refusal(out, r);
    if line == 0 {
        return print::end_line(out, a);
    }
    let b = print::put_words(out, a, b" (line", &[line]);
    print::put(out, b, b")\n")
}

fn put_failure(out: &mut [u8], f: Failure) -> usize
    requires { 128 ≤ length out.old }
    ensures { result ≤ length out.new }
{
    match f {
        Failure::Misread(m) => put_misread(out, m),
        Failure::Refused(r, line) => put_refused(out, r, line),
    }
}

// The line of a piece, 0 where there is none.
fn piece_line(ordinal: u16, lines: &[u16]) -> u16 {
    let Some(k) = usize::from(ordinal).checked_sub(1) else {
        return 0;
    };
    lines.get(k).copied().unwrap_or(0)
}

// The line that a refusal is about: of the strip for 3, 16 and 17, of the piece where there is one, else 0.
fn refused_line(r: Refusal, strip: u16, lines: &[u16]) -> u16 {
    match r.number {
        3 | 16 | 17 => strip,
        _ => piece_line(r.ordinal, lines),
    }
}

// The write call for a job whose pieces stand in the list.
fn write(job: Job, list: &mut [u16], out: &mut [u8]) -> Result<u32, Refusal>
    requires { 1 ≤ length list.old }
{
    list[0] = job.pieces;
    let s = job.strip;
    writes::write(s.width, s.resolution, s.columns, list, out)
}

// The sheet of a job, and the notes on its pieces.
fn sheet_of_job(
    job: Job,
    list: &mut [u16],
    lines: &[u16],
    out: &mut [u8],
    notes: &mut [u8],
) -> Result<Sheet, Failure>
    requires { 1 ≤ length list.old }
    ensures { IfOk result (λ s. Fits s (length out.new) (length notes.new)) }
{
    match write(job, list, out) {
        Ok(n) => Ok(Sheet {
            bytes: out.len().min(n as usize),
            notes: notes::put_notes(notes, list, lines),
            gap: job.gap,
        }),
        Err(r) => Err(Failure::Refused(r, refused_line(r, job.strip.line, lines))),
    }
}

// The sheet of a text, on lent buffers for its cut list and the lines of its pieces.
fn sheet_lent<R: Files>(
    rt: &R,
    text: &[u8],
    list: &mut [u16],
    lines: &mut [u16],
    out: &mut [u8],
    notes: &mut [u8],
) -> Result<Sheet, Failure>
    requires { 130 ≤ length list.old }
    ensures { IfOk result (λ s. Fits s (length out.new) (length notes.new)) }
{
    let job = lines::read_text(rt, text, list, lines)?;
    sheet_of_job(job, list, lines, out, notes)
}

// The sheet of a text with notes on its pieces; or, at the start of the output, so many bytes of a message.
pub fn sheet_of<R: Files>(
    rt: &R,
    text: &[u8],
    out: &mut [u8],
    notes: &mut [u8],
) -> Result<Sheet, usize>
    ensures sheet { IfOk result (λ s. Fits s (length out.new) (length notes.new)) }
    ensures message { IfErr result (λ n. n ≤ length out.new) }
{
    if out.len() < print::MESSAGE_ROOM {
        return Err(0);
    }
    let mut list = [0u16; numbers::LIST_WORDS];
    let mut lines = [0u16; records::MOST_PIECES];
    match sheet_lent(rt, text, &mut list, &mut lines, out, notes) {
        Ok(sheet) => Ok(sheet),
        Err(failure) => Err(put_failure(out, failure)),
    }
}
