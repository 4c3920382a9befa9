// The chains of a strip, walked to their ends, and their records counted.
#![tactic(auto)]

ghost use Rattle.std.specs.Prelude.{◌<◌};
ghost use Rattle.striprecords.specs.Free.{Sized};
ghost use Rattle.chains.specs.Answers.{Marks, Chains};

use striprecords::Shape;

// Is r a record, and a run of column c that begins at row m or later?
pub fn check_run(s: &[u16], g: Shape, c: usize, m: usize, r: usize) -> Option<usize>
    requires { Sized s.now g }
    ensures { Marks s.now g.records c m r result }
{
    if g.records < r || striprecords::word_of(s, g, r, limits::COLUMN) != c {
        return None;
    }
    let lo = striprecords::word_of(s, g, r, limits::LOW);
    let hi = striprecords::word_of(s, g, r, limits::HIGH);
    if lo < m || hi <= lo || g.width < hi {
        return None;
    }
    Some(hi)
}

// The chain of column c. Its lows rise, so it ends.
pub fn column_chain(s: &[u16], g: Shape, c: usize) -> Option<usize>
    requires fact_1 { Sized s.now g }
    requires fact_2 { c < g.columns }
    ensures { Chains s.now g.records c result }
{
    let mut at = striprecords::word(s, limits::LEADING_WORDS + c);
    let mut m = 0;
    let mut k: usize = 0;
    while 0 < at {
        m = check_run(s, g, c, m, at)? + 1;
        k += 1;
        at = striprecords::word_of(s, g, at, limits::NEXT);
    }
    Some(k)
}

// The free chain. One of more than Q records comes to some record again, and so does not end.
pub fn free_chain(s: &[u16], g: Shape) -> Option<usize>
    requires { Sized s.now g }
    ensures { Chains s.now g.records g.columns result }
{
    let first = striprecords::word(s, limits::FIRST_FREE);
    let mut at = striprecords::in_order(s, g, first);
    let mut k = at - first;
    while 0 < at {
        if g.records < at || g.records <= k || !striprecords::is_free(s, g, at) {
            return None;
        }
        k += 1;
        at = striprecords::word_of(s, g, at, limits::NEXT);
    }
    Some(k)
}
