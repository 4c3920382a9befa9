// Joining a run of rows into a sorted list of runs that do not touch: the runs of one column, from word 0 on.
#![tactic(auto)]

ghost use Rattle.std.specs.Prelude.{◌<◌, length};
ghost use Rattle.join.specs.Runs.{Apart, Joined};

// Joins the rows lo to hi - 1 to the n runs, and answers how many runs there are then.
pub fn join(lows: &mut [u16], highs: &mut [u16], n: usize, lo: u16, hi: u16) -> usize
    requires fact_1 { Apart lows.old highs.old n }
    requires fact_2 { (n < length lows.old) × (n < length highs.old) }
    requires fact_3 { lo < hi }
    ensures { Joined lows.old highs.old lows.new highs.new n result lo hi }
{
    runs::join_from(lows, highs, 0, n, lo, hi)
}
