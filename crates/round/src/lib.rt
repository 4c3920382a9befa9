// The search for a piece's least free position in one turn, going round the piece's runs: a run rises until it is free, then the next
// one does, until all are free at one height; the next column begins with the run that stopped the last one. The position is that of the
// walk, the heights tried are not.
#![tactic(auto)]

ghost use Rattle.round.specs.Range.{SearchedOf};

use walk::Search;

// The least free column from `from` on and below `to`, and the least free height in it.
pub fn round_range(s: Search, from: usize, to: usize) -> Option<(usize, u16)>
    ensures { SearchedOf s.entry from to result }
{
    if s.width < s.tall {
        return None;
    }
    let mut start = 0;
    for c in from..to.min((s.columns + 1).saturating_sub(s.wide)) {
        match heights::round_column(s, c, start) {
            Ok(y) => return Some((c, y)),
            Err(k) => start = k,
        }
    }
    None
}
