// The lines of a layout, as bytes of a buffer.
#![tactic(auto)]

ghost use Rattle.std.specs.Prelude.{◌≡◌, ◌+◌, ◌*◌, ◌≤◌, length};
ghost use Rattle.words.specs.Put.{Put};
ghost use Rattle.layout.specs.Lines.{fate_at, entries_lines, laid_lines, EntriesFit, LaidFits};

use defs::{Entry, Fate, Figures, Position, Totals};

// The fate that the four words of an entry say: a placed piece has 0 and its position, a refused one its number.
#[tactic(auto, unfolding(crate::specs::Lines::fate_at))]
fn fate_at(words: &[u16], at: usize) -> Fate
    requires { at + 4 ≤ length words.now }
    ensures { result ≡ fate_at words.now at }
{
    match words[at] {
        0 => Fate::Placed(Position {
            turn: words[at + 1],
            column: words[at + 2],
            height: words[at + 3],
        }),
        number => Fate::Refused(number),
    }
}

// The lines of `count` entries.
fn put_entries(out: &mut [u8], at: usize, words: &[u16], count: usize) -> usize
    requires { EntriesFit out.old at words.now count }
    ensures { Put out.old out.new at (entries_lines words.now 0 count) result }
{
    let mut to = at;
    for i in 0..count {
        let e = Entry {
            ordinal: (i + 1) as u16,
            fate: fate_at(words, numbers::ENTRY_WORDS * i),
        };
        to = layoutlines::put_entry(out, to, e);
    }
    to
}

// What is printed of a job that is laid.
pub fn put_laid(out: &mut [u8], f: Figures, words: &[u16], count: usize, t: Totals) -> usize
    requires { LaidFits out.old words.now count }
    ensures { Put out.old out.new 0 (laid_lines f words.now count t) result }
{
    let a = layoutlines::put_line(out, 0, b"strip", &[f.width, f.resolution, f.columns]);
    let b = put_entries(out, a, words, count);
    layoutlines::put_totals(out, b, t)
}
