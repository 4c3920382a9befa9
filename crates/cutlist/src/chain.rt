// The piece records of a sheet in the order of their chain.
ghost use Rattle.cutlist.specs.Pieces.{ChainFrom};

// The piece records of a sheet that passes 6, in the order of their chain: an iterator of their numbers.
#[derive(Drop)]
pub struct PieceRecords<'a> {
    pub sheet: &'a [u8],
    pub v: usize,
    pub at: usize,
    ghost ends: { ChainFrom sheet.now v at },
}
