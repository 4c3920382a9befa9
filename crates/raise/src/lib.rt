// Runs of one column raised: each goes g rows further up, and those that then touch or overlap are joined.
#![tactic(auto)]

ghost use Rattle.std.specs.Prelude.{ℕ, ◌+◌, ◌≤◌, ◌<◌, length, get_or};
ghost use Rattle.join.specs.Runs.{Apart};
ghost use Rattle.raise.specs.Raises.{Puts, Raises};

// The rows lo to hi - 1 after m runs, joined to the last of them where that reaches lo. Answers how many runs there are then.
fn put_run(lows: &mut [u16], highs: &mut [u16], m: usize, lo: u16, hi: u16) -> usize
    requires { (m < length lows.old) × (m < length highs.old) }
    ensures { Puts lows.old highs.old m lo hi lows.new highs.new result }
{
    if 0 < m && lo <= highs[m - 1] {
        highs[m - 1] = hi;
        return m;
    }
    lows[m] = lo;
    highs[m] = hi;
    m + 1
}

// Raises the n runs in place, and answers how many there are then.
pub fn raise(lows: &mut [u16], highs: &mut [u16], n: usize, g: u16) -> usize
    requires fact_1 { Apart lows.old highs.old n }
    requires fact_2 { (n ≤ length lows.old) × (n ≤ length highs.old) }
    requires fact_3 { ((i : ℕ) → i < n → get_or highs.old i 0 + g ≤ 65535) }
    ensures { Raises lows.old highs.old n g lows.new highs.new result }
{
    if g == 0 {
        return n;
    }
    let mut m = 0;
    for i in 0..n {
        let lo = lows[i];
        let hi = highs[i] + g;
        m = put_run(lows, highs, m, lo, hi);
    }
    m
}
