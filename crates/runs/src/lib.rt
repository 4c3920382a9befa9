// Joining rows into a sorted list of runs that do not touch, the last column of a growing table.
#![tactic(auto)]

ghost use Rattle.std.specs.Prelude.{◌≤◌, ◌<◌, length};
ghost use Rattle.runs.specs.Runs.{Apart, Joined, Up, Down, Reaches, Passes};

// The first word from a on that is above v.
pub fn pass(s: &[u16], a: usize, n: usize, v: u16) -> usize
    requires { (a ≤ n) × (n ≤ length s.now) }
    ensures { Passes s.now a n v result }
{
    for i in a..n {
        if v < s[i] {
            return i;
        }
    }
    n
}

// The first word from a on that is at least v.
fn reach(s: &[u16], a: usize, n: usize, v: u16) -> usize
    requires { (a ≤ n) × (n ≤ length s.now) }
    ensures { Reaches s.now a n v result }
{
    if v == 0 { a } else { pass(s, a, n, v - 1) }
}

// Makes room for a word at a.
fn shift_up(s: &mut [u16], a: usize, n: usize)
    requires { (a ≤ n) × (n < length s.old) }
    ensures { Up s.old s.new a n }
{
    s.copy_within(a..n, a + 1);
}

// Takes the words from a to b - 1 out.
fn shift_down(s: &mut [u16], a: usize, b: usize, n: usize)
    requires { (a ≤ b) × (b ≤ n) × (n ≤ length s.old) }
    ensures { Down s.old s.new a b n }
{
    s.copy_within(b..n, a);
}

// Joins the rows lo to hi - 1 to the runs base to n - 1, and answers where the runs end then.
pub fn join_from(
    lows: &mut [u16],
    highs: &mut [u16],
    base: usize,
    n: usize,
    lo: u16,
    hi: u16,
) -> usize
    requires fact_1 { Apart lows.old highs.old base n }
    requires fact_2 { (base ≤ n) × (n < length lows.old) × (n < length highs.old) }
    requires fact_3 { lo < hi }
    ensures { Joined lows.old highs.old lows.new highs.new base n result lo hi }
{
    let a = reach(highs, base, n, lo);
    let b = pass(lows, a, n, hi);
    if a == b {
        shift_up(lows, a, n);
        shift_up(highs, a, n);
        lows[a] = lo;
        highs[a] = hi;
        n + 1
    } else {
        lows[a] = lo.min(lows[a]);
        highs[a] = hi.max(highs[b - 1]);
        shift_down(lows, a + 1, b, n);
        shift_down(highs, a + 1, b, n);
        n - b + a + 1
    }
}
