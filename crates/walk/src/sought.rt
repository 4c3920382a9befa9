// What a search looks through, and for what.

ghost use Rattle.std.specs.Prelude.{◌≤◌};
ghost use Rattle.walk.specs.Free.{Frame};

// A table laid flat, its columns and width, and the runs of a piece: how many, and its columns and height.
#[derive(Clone, Copy)]
pub struct Search<'a> {
    pub first: &'a [u16],
    pub lows: &'a [u16],
    pub highs: &'a [u16],
    pub runs: &'a [u16],
    pub columns: usize,
    pub width: u16,
    pub count: usize,
    pub wide: usize,
    pub tall: u16,
    pub ghost framed: { Frame first.now lows.now highs.now runs.now columns width count wide tall },
    pub ghost low: { width ≤ 16000 },
}
