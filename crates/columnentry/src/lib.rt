// One column of a table laid flat, with a piece's runs entered into it: the old runs of the column are copied, and the piece's runs in the
// column are joined to them, so that only words of one column are moved.
#![tactic(auto)]

ghost use Rattle.std.specs.Prelude.{◌+◌, ◌≤◌, ◌<◌, length};
ghost use Rattle.columnentry.specs.Columns.{Fits, Copied, Split, Room, Added, Next, EntersColumn};

// The columns and the width of the table, and the most runs that it may have; how many runs the piece has, and where it is placed.
#[derive(Clone, Copy, Debug, PartialEq, Eq)]
pub struct Entry {
    pub columns: usize,
    pub width: u16,
    pub most: usize,
    pub runs: usize,
    pub column: usize,
    pub height: u16,
}

// How many runs the new table has so far, and how many of the piece's runs are entered.
#[derive(Clone, Copy, Debug, PartialEq, Eq)]
pub struct Built {
    pub runs: usize,
    pub used: usize,
}

// Copies the words a to e - 1 to t. Word by word: a column has few, and for so few `copy_from_slice`, which is memcpy, takes lay a fifth
// more instructions.
fn copy_words(from: &[u16], a: usize, e: usize, to: &mut [u16], t: usize)
    requires { (a ≤ e) × (e ≤ length from.now) × (t + e ≤ length to.old + a) }
    ensures { Copied from.now to.old to.new a e t }
{
    for i in a..e {
        to[t + (i - a)] = from[i];
    }
}

// The end of the piece's runs in column k, which begin with run a.
fn column_end(runs: &[u16], g: Entry, k: usize, a: usize) -> usize
    requires fits { Fits runs.now g }
    requires from { Split runs.now g k a }
    ensures { Split runs.now g (k + 1) result }
{
    for e in a..g.runs {
        if k < g.column + runs[3 * e] as usize {
            return e;
        }
    }
    g.runs
}

// Joins the piece's runs a to e - 1, as far as they lie below the table's width, to the runs base to t - 1, and answers where the runs end
// then.
fn add_runs(
    runs: &[u16],
    g: Entry,
    a: usize,
    e: usize,
    lows: &mut [u16],
    highs: &mut [u16],
    base: usize,
    t: usize,
) -> usize
    requires fits { Fits runs.now g }
    requires room { Room lows.old highs.old base t }
    requires some { (a ≤ e) × (e ≤ g.runs) }
    ensures { Added lows.old highs.old lows.new highs.new runs.now
        base t result g.width g.height a e }
{
    let y = g.height;
    let top = g.width;
    let mut u = t;
    for i in a..e {
        u = runs::join_from(
            lows,
            highs,
            base,
            u,
            y + runs[3 * i + 1],
            top.min(y + runs[3 * i + 2]),
        );
    }
    u
}

// Enters column k behind the runs of the columns before it.
pub fn enter_column(
    first: &[u16],
    lows: &[u16],
    highs: &[u16],
    runs: &[u16],
    g: Entry,
    k: usize,
    b: Built,
    lows2: &mut [u16],
    highs2: &mut [u16],
) -> Built
    requires next { Next first.now lows.now highs.now runs.now g k b }
    requires room { (24001 ≤ length lows2.old) × (24001 ≤ length highs2.old) }
    ensures { EntersColumn first.now lows.now highs.now runs.now
        lows2.old highs2.old lows2.new highs2.new g k b result }
{
    let from = first[k] as usize;
    let to = first[k + 1] as usize;
    let base = b.runs;
    copy_words(lows, from, to, lows2, base);
    copy_words(highs, from, to, highs2, base);
    let copied = base + (to - from);
    let a = b.used;
    let e = column_end(runs, g, k, a);
    let t = add_runs(runs, g, a, e, lows2, highs2, base, copied);
    Built { runs: t, used: e }
}
