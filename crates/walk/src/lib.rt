// The search for a piece's least free position in one turn: column by column, and in a column from height 0 on by jumps. The heights
// tried are counted.
#![tactic(auto)]

ghost use Rattle.std.specs.Prelude.{◌+◌, ◌≤◌};
ghost use Rattle.walk.specs.Free.{InColumns, Before, GoesOn};
ghost use Rattle.walk.specs.Of.{WalkedColumnOf, WalkedTurnOf};

mod sought;

pub use sought::Search;
use tries::Tried;

// What a walk finds, and the tries it made.
#[derive(Clone, Copy)]
pub struct WithTries<A> {
    pub found: A,
    pub tries: u32,
}

// The run to try after a jump, and the greatest height up to which the runs before it stay free.
#[derive(Clone, Copy)]
struct Next {
    run: usize,
    stay: u16,
}

// How the walk goes on after a jump of run k to y: with run k, where the runs before it stay free up to y, else with run 0.
fn go_on(k: usize, y: u16, stay: u16, top: u16) -> Next
    requires { (y ≤ top) × (stay ≤ top) }
    ensures { GoesOn k y stay top result.run result.stay }
{
    if stay < y {
        Next { run: 0, stay: top }
    } else {
        Next { run: k, stay }
    }
}

// How many of the p runs are in columns before w, looked for from the last one on.
fn count_before(runs: &[u16], p: usize, w: usize) -> usize
    requires { InColumns runs.now p }
    ensures { Before runs.now p w result }
{
    let mut q = p;
    // downwards, so by a `while`
    while 0 < q {
        let k = q - 1;
        if usize::from(runs[3 * k]) < w {
            return q;
        }
        q = k;
    }
    q
}

// How many of the p runs are in columns before w. They stand by column, so these are the first ones, and mostly all: that is asked first,
// and apart, so that a walk has no more to keep in registers.
pub fn runs_before(runs: &[u16], p: usize, w: usize) -> usize
    requires { InColumns runs.now p }
    ensures { Before runs.now p w result }
{
    if 0 < p && usize::from(runs[3 * (p - 1)]) < w {
        return p;
    }
    count_before(runs, p, w)
}

// The least free height in column c, and the tries; what goes past the last column or the top does not count. Runs that stay free up to a height are not
// tried again until a jump goes above it.
pub fn walk_column(s: Search, c: usize) -> WithTries<Option<u16>>
    requires { (c + s.wide ≤ s.columns) × (s.tall ≤ s.width) }
    ensures { WalkedColumnOf s.entry c result }
{
    let lows = s.lows;
    let highs = s.highs;
    let runs = s.runs;
    let top = s.width - s.tall;
    let n = s.columns;
    let p = runs_before(runs, s.count, n - c);
    let here = &s.first[c..];
    let mut y: u16 = 0;
    let mut k = 0;
    let mut stay = top;
    let mut tries: u32 = 1;
    while k < p {
        let col = runs[3 * k] as usize;
        let lo = runs[3 * k + 1];
        let hi = runs[3 * k + 2];
        match tries::try_run(here, lows, highs, col, lo, hi, y, stay) {
            Tried::Clear(z) => {
                stay = z;
                k += 1;
            }
            Tried::Jump(z) => {
                if top < z {
                    return WithTries { found: None, tries };
                }
                let n = go_on(k, z, stay, top);
                y = z;
                k = n.run;
                stay = n.stay;
                tries += 1;
            }
        }
    }
    WithTries {
        found: Some(y),
        tries,
    }
}

// The least free column, the least free height in it, and the tries.
pub fn walk_turn(s: Search) -> WithTries<Option<(usize, u16)>>
    requires { s.columns ≤ 4096 }
    ensures { WalkedTurnOf s.entry result }
{
    let mut tries: u32 = 0;
    if s.tall <= s.width {
        for c in 0..(s.columns + 1).saturating_sub(s.wide) {
            let x = walk_column(s, c);
            tries += x.tries;
            if let Some(y) = x.found {
                return WithTries {
                    found: Some((c, y)),
                    tries,
                };
            }
        }
    }
    WithTries { found: None, tries }
}
