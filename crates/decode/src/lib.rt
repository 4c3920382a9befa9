// A strip's runs, taken into a table laid flat. Question 5 is answered in the same walk, so that no chain is walked twice.
#![tactic(auto)]

ghost use Rattle.std.specs.Prelude.{◌≤◌, ◌<◌, length};
ghost use Rattle.striprecords.specs.Free.{Sized};
ghost use Rattle.decode.specs.Takes.{Room, Takes};
ghost use Rattle.decode.specs.Decodes.{Decodes};

use striprecords::Shape;

// The chain of column c, its runs taken to the table from t on.
fn take_runs(
    s: &[u16],
    g: Shape,
    c: usize,
    t: usize,
    lows: &mut [u16],
    highs: &mut [u16],
) -> Option<usize>
    requires sized { Sized s.now g }
    requires within { (c < g.columns) × (t ≤ g.records) }
    requires fits { Room s.now g.records c t }
    requires room { (g.records ≤ length lows.old) × (g.records ≤ length highs.old) }
    ensures { Takes s.now lows.old highs.old lows.new highs.new g.records c t result }
{
    let mut at = striprecords::word(s, limits::LEADING_WORDS + c);
    let mut m = 0;
    let mut k = 0;
    while 0 < at {
        if g.records <= t + k {
            return None;
        }
        let h = chains::check_run(s, g, c, m, at)?;
        lows[t + k] = striprecords::word_of(s, g, at, limits::LOW) as u16;
        highs[t + k] = h as u16;
        m = h + 1;
        k += 1;
        at = striprecords::word_of(s, g, at, limits::NEXT);
    }
    Some(k)
}

// All chains.
fn take_all(
    s: &[u16],
    g: Shape,
    first: &mut [u16],
    lows: &mut [u16],
    highs: &mut [u16],
) -> Option<usize>
    requires sized { Sized s.now g }
    requires room { (4097 ≤ length first.old) × (16000 ≤ length lows.old) × (16000 ≤ length highs.old) }
    ensures { Decodes s.now first.new lows.new highs.new result }
{
    first[0] = 0;
    let mut t = 0;
    for c in 0..g.columns {
        t += take_runs(s, g, c, t, lows, highs)?;
        first[c + 1] = t as u16;
    }
    let k = chains::free_chain(s, g)?;
    if t + k == g.records { Some(t) } else { None }
}

// The runs of a well-formed strip, by column then low.
pub fn decode(s: &[u16], first: &mut [u16], lows: &mut [u16], highs: &mut [u16]) -> Option<usize>
    requires { (4097 ≤ length first.old) × (16000 ≤ length lows.old) × (16000 ≤ length highs.old) }
    ensures { Decodes s.now first.new lows.new highs.new result }
{
    take_all(s, form::measure(s)?, first, lows, highs)
}
