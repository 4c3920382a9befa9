// Where in a piece its ordinal stands, and how large: by its runs of cells, in the longest of them that has room.
#![tactic(auto)]

ghost use Rattle.std.specs.Prelude.{◌*◌, ◌≤◌};

// Words of a run: its column, its lowest row, and the row above its highest.
pub const RUN_WORDS: usize = 3;

// In at most so many columns a piece is looked at for its ordinal's place. They have at most 32 runs each: the work buffer has room.
const PARTS: u16 = 64;

// Word i, or 0 where there is none.
pub fn word(words: &[u16], i: usize) -> u16 {
    words.get(i).copied().unwrap_or(0)
}

// A run of cells in a column; or a band, some rows of a piece, the lowest and the highest, and a column that has them.
#[derive(Clone, Copy)]
struct Run {
    column: u16,
    low: u16,
    high: u16,
}

impl Run {
    fn of(words: &[u16]) -> Run {
        Run {
            column: word(words, 0),
            low: word(words, 1),
            high: word(words, 2),
        }
    }

    // How ill the run serves for the ordinal: far from the middle column, or short.
    fn cost(self, middle: u16, part: u16) -> u64 {
        let far = u64::from(self.column.abs_diff(middle)) * u64::from(part);
        65535 - u64::from(self.high) + u64::from(self.low) + far
    }
}

// The run whose middle row the ordinal stands in: in a bent outline the middle of its bounds may be outside.
fn best_run(runs: &[u16], long: u16) -> Option<Run> {
    let part = part_of(long);
    let middle = long / 2 / part;
    runs.chunks_exact(RUN_WORDS)
        .map(Run::of)
        .min_by_key(|run| run.cost(middle, part))
}

// Columns in a row, from one to before another.
#[derive(Clone, Copy)]
struct Stretch {
    from: u32,
    to: u32,
}

impl Stretch {
    // The stretch with the run's column, if the run has the band's rows: the first such stretch that does not end before the band's column.
    fn with(self, run: Run, band: Run) -> Stretch {
        let column = u32::from(run.column);
        if band.low < run.low || run.high <= band.high {
            self
        } else if column == self.to {
            Stretch {
                from: self.from,
                to: column + 1,
            }
        } else if run.column <= band.column {
            Stretch {
                from: column,
                to: column + 1,
            }
        } else {
            self
        }
    }
}

// The columns around the band's that have its rows.
fn stretch_of(runs: &[u16], band: Run) -> Stretch {
    let none = Stretch { from: 0, to: 0 };
    runs.chunks_exact(RUN_WORDS)
        .map(Run::of)
        .fold(none, |stretch, run| stretch.with(run, band))
}

// How wide the columns are in which a piece is looked at that is so long.
pub fn part_of(long: u16) -> u16
    ensures { 1 ≤ result }
{
    long / PARTS + 1
}

// Where a column begins, within a piece that is so long.
fn within(column: u32, long: u16) -> u16 {
    let at = u64::from(column) * u64::from(part_of(long));
    at.min(u64::from(long)) as u16
}

// Units of a piece in a row.
#[derive(Clone, Copy)]
struct Units {
    from: u16,
    to: u16,
}

// The units around the band's column that have its rows.
fn units_of(runs: &[u16], band: Run, long: u16) -> Units {
    let t = stretch_of(runs, band);
    Units {
        from: within(t.from, long),
        to: within(t.to, long),
    }
}

// The size of ordinal k in so many units, in hundredths: a digit is less than two thirds as wide as the size.
fn size_in(units: u16, k: u64) -> u64 {
    let percent = match k {
        0..=9 => 90,
        10..=99 => 60,
        _ => 42,
    };
    percent * u64::from(units)
}

// The size of an ordinal in so many rows and in these units, in hundredths.
fn ordinal_font(font: u64, tall: u16, t: Units, k: u64) -> u64
    ensures { result ≤ 80 * tall }
{
    let size = size_in(t.to.saturating_sub(t.from), k);
    font.min(size).min(80 * u64::from(tall))
}

// Where the middle of an ordinal stands in its piece, and its size, in hundredths.
#[derive(Clone, Copy)]
pub struct Spot {
    pub x: u32,
    pub y: u32,
    pub font: u64,
}

// The place for an ordinal in a run: in its middle row, and so large that the columns have all rows of the text.
fn spot_in(runs: &[u16], run: Run, long: u16, font: u64, k: u64) -> Spot {
    let tall = run.high.saturating_sub(run.low);
    let row = run.low + tall / 2;
    let line = Run {
        column: run.column,
        low: row,
        high: row,
    };
    let first = ordinal_font(font, tall, units_of(runs, line, long), k);
    let half = (first * 36 / 10000) as u16;
    let text = Run {
        column: run.column,
        low: row - half,
        high: row + half,
    };
    let t = units_of(runs, text, long);
    Spot {
        x: 50 * u32::from(t.from) + 50 * u32::from(t.to),
        y: 50 * u32::from(run.low) + 50 * u32::from(run.high),
        font: ordinal_font(first, tall, t, k),
    }
}

// The place for the ordinal of a piece that is so long and has these runs.
pub fn spot_of(runs: &[u16], long: u16, font: u64, k: u64) -> Spot {
    let corner = Run {
        column: 0,
        low: 0,
        high: 0,
    };
    let run = best_run(runs, long).unwrap_or(corner);
    spot_in(runs, run, long, font, k)
}
