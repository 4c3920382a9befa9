// One run of a piece, tried at a height in a column of the table.
#![tactic(auto)]

ghost use Rattle.std.specs.Prelude.{◌+◌, ◌≤◌, ◌<◌};
ghost use Rattle.tries.specs.Tries.{Column, Tries};

// What one try of a run of the piece says: it is free up to a height, or the next height to try.
#[derive(Clone, Copy, Debug, PartialEq, Eq)]
pub enum Tried {
    Clear(u16),
    Jump(u16),
}

// Tries the rows lo to hi - 1 of column c, moved to the height y: they stay free up to a height of at most `most`, or they jump onto the
// lowest occupied run that they meet.
pub fn try_run(
    first: &[u16],
    lows: &[u16],
    highs: &[u16],
    c: usize,
    lo: u16,
    hi: u16,
    y: u16,
    most: u16,
) -> Tried
    requires column { Column first.now lows.now highs.now c }
    requires run { (lo < hi) × (y + hi ≤ 65535) × (y ≤ most) }
    ensures { Tries first.now lows.now highs.now c lo hi y most result }
{
    let a = first[c] as usize;
    let e = first[c + 1] as usize;
    let i = runs::pass(highs, a, e, y + lo);
    if e <= i {
        return Tried::Clear(most);
    }
    if lows[i] < y + hi {
        Tried::Jump(highs[i] - lo)
    } else {
        Tried::Clear(most.min(lows[i] - hi))
    }
}
