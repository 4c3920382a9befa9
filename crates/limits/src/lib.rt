// Questions 3, 16, 17, 21 and 4: the limits of width, resolution, columns, gap and records, and the length of a strip.
#![tactic(auto)]

ghost use Rattle.std.specs.Prelude.{◌≡◌, ◌&&◌, leb};
ghost use Rattle.defs.specs.Computing.Words.{resolutionb, gapb, limits_no, figures_no, lengthb, records_of};
ghost use Rattle.defs.specs.Computing.Calls.{passing};

use defs::{Refusal, refused};

pub const MOST_WIDTH: u16 = 16000;

pub const MOST_COLUMNS: u16 = 4096;

pub const MOST_RECORDS: usize = 16000;

pub const MOST_GAP: u16 = 400;

// A table's places for the first runs of the columns: one for each of the most columns, and one more.
pub const FIRSTS: usize = 4097;

// The words of a strip: W, R, N, first free record, gap; each column's first record; then the records, of column, low, high, next.
pub const LEADING_WORDS: usize = 5;

pub const WIDTH: usize = 0;

pub const RESOLUTION: usize = 1;

pub const COLUMNS: usize = 2;

pub const FIRST_FREE: usize = 3;

pub const GAP: usize = 4;

pub const RECORD_WORDS: usize = 4;

pub const COLUMN: usize = 0;

pub const LOW: usize = 1;

pub const HIGH: usize = 2;

pub const NEXT: usize = 3;

// Whether x is 1 to `most`.
fn in_range(x: u16, most: u16) -> bool
    ensures { result ≡ (leb 1 x && leb x most) }
{
    1 <= x && x <= most
}

// Question 16.
pub fn resolution_fits(r: u16) -> bool
    ensures { result ≡ resolutionb r }
{
    in_range(r, numbers::MOST_RESOLUTION)
}

// Questions 3, 16 and 17.
pub fn limits(w: u16, r: u16, n: u16) -> Result<(), Refusal>
    ensures { result ≡ passing (limits_no w r n) }
{
    if !in_range(w, MOST_WIDTH) {
        return refused(3, 0);
    }
    if !resolution_fits(r) {
        return refused(16, 0);
    }
    if !in_range(n, MOST_COLUMNS) {
        return refused(17, 0);
    }
    Ok(())
}

// Question 21.
pub fn gap_fits(g: u16) -> bool
    ensures { result ≡ gapb g }
{
    g <= MOST_GAP
}

// Questions 3, 16, 17 and 21.
pub fn figures(w: u16, r: u16, n: u16, g: u16) -> Result<(), Refusal>
    ensures { result ≡ passing (figures_no w r n g) }
{
    limits(w, r, n)?;
    if !gap_fits(g) {
        return refused(21, 0);
    }
    Ok(())
}

// Q of a strip of n columns and so many words.
pub fn records_of(n: u16, words: usize) -> usize
    ensures { result ≡ records_of n words }
{
    let front = LEADING_WORDS + n as usize;
    if words < front {
        return 0;
    }
    (words - front) / RECORD_WORDS
}

// Question 4: the length is 5 + N + 4Q for some Q of 1 to 16,000.
#[tactic(auto, unfolding(defs::specs::Computing::Words::lengthb))]
pub fn length_fits(n: u16, words: usize) -> bool
    ensures { result ≡ lengthb n words }
{
    let q = records_of(n, words);
    if q < 1 {
        return false;
    }
    q <= MOST_RECORDS && words == LEADING_WORDS + n as usize + RECORD_WORDS * q
}
