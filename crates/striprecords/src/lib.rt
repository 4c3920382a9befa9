// The records of a strip: their words, and free records that lead to the next.
#![tactic(auto)]

ghost use Rattle.std.specs.Prelude.{◌≡◌, ◌≤◌, ◌<◌, length, get_or};
ghost use Rattle.defs.specs.Meaning.Strip.{word_of, IsFree};
ghost use Rattle.laws.proofs.Tests.{Decides};
ghost use Rattle.striprecords.specs.Free.{Sized, LeadsOn, InOrder};

// W, N and Q of a strip.
#[derive(Clone, Copy, Debug, PartialEq, Eq)]
pub struct Shape {
    pub width: usize,
    pub columns: usize,
    pub records: usize,
}

// Each word is less.
const WORD: usize = 65536;

pub fn word(s: &[u16], i: usize) -> usize
    requires { i < length s.now }
    ensures value { result ≡ get_or s.now i 0 }
    ensures is_word { result < 65536 }
{
    usize::from(s[i])
}

// Word i of record r.
pub fn word_of(s: &[u16], g: Shape, r: usize, i: usize) -> usize
    requires sized { Sized s.now g }
    requires within { (r ≤ g.records) × (i ≤ 3) }
    ensures value { result ≡ word_of s.now r i }
    ensures is_word { result < 65536 }
{
    word(s, limits::RECORD_WORDS * r + g.columns + 1 + i)
}

// "A free record has column N, low and high 0."
pub fn is_free(s: &[u16], g: Shape, r: usize) -> bool
    requires sized { Sized s.now g }
    requires is_record { r ≤ g.records }
    ensures { Decides result (IsFree s.now r) }
{
    word_of(s, g, r, limits::COLUMN) == g.columns
        && word_of(s, g, r, limits::LOW) == 0
        && word_of(s, g, r, limits::HIGH) == 0
}

// Is record r free, and r + 1 its next? Its four words, as one number, are compared with what they should be: one read, one branch.
fn leads_on(s: &[u16], g: Shape, r: usize) -> bool
    requires sized { Sized s.now g }
    requires is_record { r ≤ g.records }
    ensures { Decides result (LeadsOn s.now r) }
{
    let column = word_of(s, g, r, limits::COLUMN);
    let low = word_of(s, g, r, limits::LOW);
    let high = word_of(s, g, r, limits::HIGH);
    let next = word_of(s, g, r, limits::NEXT);
    column + WORD * (low + WORD * (high + WORD * next))
        == g.columns + WORD * (WORD * (WORD * (r + 1)))
}

// From r on, the first record that does not lead on; no record is 0. As encode and open write the free chain, it is passed here to its
// last record, and no read waits for the one before, as where each record says which is read next.
pub fn in_order(s: &[u16], g: Shape, r: usize) -> usize
    requires { Sized s.now g }
    ensures { InOrder s.now g.records r result }
{
    if r < 1 {
        return r;
    }
    for e in r..g.records {
        if !leads_on(s, g, e) {
            return e;
        }
    }
    r.max(g.records)
}
