// The single lines of a layout, as bytes of a buffer.
#![tactic(auto)]

ghost use Rattle.std.specs.Prelude.{[], ◌∷◌, ◌+◌, ◌*◌, ◌≤◌, length};
ghost use Rattle.defs.specs.Computing.Text.{line, entry_line, totals_line};
ghost use Rattle.words.specs.Put.{Put};
ghost use Rattle.layoutlines.specs.Line.{lined};

use defs::{Entry, Fate, Refusal, Totals};

// A word with the numbers after it, to the end of the line.
pub fn put_line(out: &mut [u8], at: usize, word: &[u8], numbers: &[u16]) -> usize
    requires { at + length word.now + 6 * length numbers.now + 1 ≤ length out.old }
    ensures { Put out.old out.new at (lined word.now numbers.now) result }
{
    let end = print::put_words(out, at, word, numbers);
    out[end] = b'\n';
    end + 1
}

// The line of an entry.
pub fn put_entry(out: &mut [u8], at: usize, e: Entry) -> usize
    requires { at + 31 ≤ length out.old }
    ensures { Put out.old out.new at (entry_line e) result }
{
    let a = print::put_decimal(out, at, e.ordinal);
    match e.fate {
        Fate::Placed(p) => put_line(out, a, b" placed", &[p.turn, p.column, p.height]),
        Fate::Refused(n) => put_line(out, a, b" refused", &[n]),
    }
}

// The last line.
pub fn put_totals(out: &mut [u8], at: usize, t: Totals) -> usize
    requires { at + 29 ≤ length out.old }
    ensures { Put out.old out.new at (totals_line t) result }
{
    let a = print::put(out, at, b"used");
    out[a] = b' ';
    let b = print::put_long(out, a + 1, t.used);
    put_line(out, b, b" placed", &[t.placed])
}

pub fn put_refused(out: &mut [u8], f: Refusal) -> usize
    requires { 24 ≤ length out.old }
    ensures { Put out.old out.new 0 (line "job refused" (f.number ∷ f.ordinal ∷ [])) result }
{
    put_line(out, 0, b"job refused", &[f.number, f.ordinal])
}
