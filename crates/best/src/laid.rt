// The runs of a strip, laid flat.

ghost use Rattle.std.specs.Prelude.{◌≤◌, get_or};
ghost use Rattle.tables.specs.Flat.{Laid};

use defs::Figures;

// A strip's figures, gap and number of records, and the table of its runs: where those of each column begin, and the rows of each.
#[derive(Clone, Copy)]
pub struct Board<'a> {
    pub figures: Figures,
    pub gap: u16,
    pub records: usize,
    pub first: &'a [u16],
    pub lows: &'a [u16],
    pub highs: &'a [u16],
    pub ghost resolution: { (1 ≤ figures.resolution) × (figures.resolution ≤ 400) },
    pub ghost limits: { (gap ≤ 400) × (figures.width ≤ 16000) × (figures.columns ≤ 4096) },
    pub ghost table: { Laid first.now lows.now highs.now figures.width figures.columns (get_or first.now figures.columns 0) },
}
