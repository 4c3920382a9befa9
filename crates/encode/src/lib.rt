// A table of runs, written into a strip: records 1, 2, 3 by column then low, and the free records after them in rising order.
#![tactic(auto)]

ghost use Rattle.std.specs.Prelude.{◌≡◌, [], ◌∷◌, ◌+◌, ◌*◌, ◌-◌, ◌≤◌, ◌<◌, length, get_or};
ghost use Rattle.std.proofs.lemmas.List.Edits.{sets};
ghost use Rattle.defs.specs.Meaning.Limits.{leading_words, record_words};
ghost use Rattle.defs.specs.Computing.Words.{records_of, column_words, run_words, written};
ghost use Rattle.tables.specs.Flat.{Flat, rows_from, table_of};
ghost use Rattle.encode.specs.Room.{Room};
ghost use Rattle.freerecords.specs.Stored.{link, first_records, RunsFit};

use defs::Figures;

// The record of run i in a chain that ends before run `end`: record i + 1, or 0 where the chain has no run i.
fn record_of(i: u16, end: u16) -> u16
    ensures { result ≡ link i end }
{
    if i < end { i + 1 } else { 0 }
}

// The leading words.
fn put_leading(strip: &mut [u16], g: Figures, free: u16, gap: u16)
    requires { leading_words ≤ length strip.old }
    ensures { strip.new ≡ sets strip.old 0 (g.width ∷ (g.resolution ∷ (g.columns ∷ (free ∷ (gap ∷ []))))) }
{
    freerecords::put_four(strip, 0, g.width, g.resolution, g.columns, free);
    strip[limits::GAP] = gap;
}

// The first record of each of n columns.
fn put_firsts(strip: &mut [u16], first: &[u16], n: usize)
    requires { (n < length first.now) × (leading_words + n ≤ length strip.old) }
    ensures { strip.new ≡ sets strip.old leading_words (first_records first.now n) }
{
    for k in 0..n {
        strip[limits::LEADING_WORDS + k] = record_of(first[k], first[k + 1]);
    }
}

// The records of the runs `from` to end - 1, which are those of column k, from word `at` on. The last is put after the loop, so that
// no record is asked whether it is the last.
fn put_column(
    strip: &mut [u16],
    at: usize,
    k: u16,
    lows: &[u16],
    highs: &[u16],
    from: u16,
    end: u16,
)
    requires { RunsFit lows.now highs.now from end at (length strip.old) }
    ensures { strip.new ≡ sets strip.old at
        (column_words k (from + 1) (rows_from lows.now highs.now from (end - from))) }
{
    if from == end {
        return;
    }
    let last = end as usize - 1;
    let mut p = at;
    for i in from as usize..last {
        freerecords::put_four(strip, p, k, lows[i], highs[i], (i + 2) as u16);
        p += limits::RECORD_WORDS;
    }
    freerecords::put_four(strip, p, k, lows[last], highs[last], 0);
}

// The records of the runs of n columns.
fn put_records(strip: &mut [u16], first: &[u16], lows: &[u16], highs: &[u16], n: usize)
    requires table { Flat first.now lows.now highs.now n (get_or first.now n 0) }
    requires room { (n ≤ 4096) × (leading_words + n + record_words * get_or first.now n 0 ≤ length strip.old) }
    ensures { strip.new ≡ sets strip.old (leading_words + n)
        (run_words 0 1 (table_of first.now lows.now highs.now n)) }
{
    let start = limits::LEADING_WORDS + n;
    for k in 0..n {
        let from = first[k];
        let at = start + limits::RECORD_WORDS * from as usize;
        put_column(strip, at, k as u16, lows, highs, from, first[k + 1]);
    }
}

// The strip of these figures and this gap that holds the t runs of the table.
pub fn encode(
    strip: &mut [u16],
    g: Figures,
    gap: u16,
    first: &[u16],
    lows: &[u16],
    highs: &[u16],
    t: usize,
)
    requires fact_1 { Flat first.now lows.now highs.now g.columns t }
    requires fact_2 { Room g.columns t (length strip.old) }
    ensures { strip.new ≡ written g.width g.resolution g.columns gap (records_of g.columns (length strip.old))
        (table_of first.now lows.now highs.now g.columns) }
{
    let n = g.columns as usize;
    let q = limits::records_of(g.columns, strip.len());
    let free = record_of(t as u16, q as u16);
    put_leading(strip, g, free, gap);
    put_firsts(strip, first, n);
    put_records(strip, first, lows, highs, n);
    let at = limits::LEADING_WORDS + n + limits::RECORD_WORDS * t;
    freerecords::put_free(strip, at, g.columns, t, q);
}
