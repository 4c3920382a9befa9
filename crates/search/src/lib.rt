// The least free position in one turn, by the walk or going round the runs of the piece.
#![tactic(auto)]

ghost use Rattle.std.specs.Prelude.{◌+◌, ◌-◌, ◌≤◌};
ghost use Rattle.defs.specs.Meaning.Placing.{columns_for};
ghost use Rattle.search.specs.Searched.{FullOf, LooksIn};

use walk::{Search, WithTries};

// How a turn is searched: by the walk, or going round the piece's runs. An enum and no closure: what a call promises of its tries goes by
// it, up to place_asked.
#[derive(Clone, Copy, Debug, PartialEq, Eq)]
pub enum Way {
    Walk,
    Round,
}

// Which right edges count, of a piece of that extent in columns of that resolution: none before `least` is free, and one past `most` may be
// left out.
#[derive(Clone, Copy, Debug, PartialEq, Eq)]
pub struct Edges {
    pub extent: u16,
    pub resolution: u16,
    pub least: u32,
    pub most: u32,
}

// The least free position of a piece. Going round, only columns from which its right edge counts are tried, and no tries are counted: they
// are not those of the walk.
pub fn search(s: Search, way: Way, e: Edges) -> WithTries<Option<(usize, u16)>>
    requires columns { s.columns ≤ 4096 }
    requires positive { 1 ≤ e.resolution }
    requires full { FullOf s (columns_for (e.least - e.extent) e.resolution) }
    ensures { LooksIn s.entry (columns_for (e.most + 1 - e.extent) e.resolution) way result }
{
    match way {
        Way::Walk => walk::walk_turn(s),
        Way::Round => {
            let from = ranks::columns_before(e.least as usize, e.extent, e.resolution);
            let end = ranks::columns_before(e.most as usize + 1, e.extent, e.resolution);
            WithTries {
                found: round::round_range(s, from, end),
                tries: 0,
            }
        }
    }
}
