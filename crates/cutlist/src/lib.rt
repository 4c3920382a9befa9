// The words of a cut list, from the records of a sheet.
#![tactic(auto)]

ghost use Rattle.std.specs.Prelude.{◌≡◌, ◌+◌, length};
ghost use Rattle.std.specs.Iterator.{item_count};
ghost use Rattle.std.proofs.lemmas.List.Edits.{sets};
ghost use Rattle.defs.specs.Meaning.Sheet.{piece_words, pieces_words, list_words};
ghost use Rattle.defs.specs.Computing.Sheets.{piece_of, piece_records, sheet_pieces};
ghost use Rattle.words.specs.Put.{Put};
ghost use Rattle.cutlist.specs.Along.{records_left, Starts, Steps};
ghost use Rattle.cutlist.specs.Pieces.{PieceAt, VertexEnds, AllEnd, PieceFits, ChainEnds, PiecesRoom, PieceCounted};

use reader::Reader;

mod chain;

pub use chain::PieceRecords;

impl<'a> PieceRecords<'a> {
    pub fn of(sheet: &'a [u8], v: usize) -> PieceRecords<'a>
        requires { ChainEnds sheet.now v }
        ensures { Starts sheet.now v result }
    {
        let at = fields::number(sheet, fields::FIRST_PIECE) as usize;
        PieceRecords { sheet, v, at }
    }
}

impl<'a> Iterator for PieceRecords<'a> {
    type Item = usize;

    ghost next_gives = { Steps };

    ghost remaining = { item_count records_left };

    fn next(&mut self) -> Option<usize> {
        if self.at == 0 {
            return None;
        }
        let at = self.at;
        self.at = Reader::start(self.sheet, self.v + at).present().next as usize;
        Some(at)
    }
}

// The number of words of the piece of piece record `at`.
fn piece_words(sheet: &[u8], v: usize, at: usize) -> usize
    requires fact_1 { PieceAt sheet.now v at }
    requires fact_2 { VertexEnds sheet.now at }
    ensures { PieceCounted sheet.now at result }
{
    let piece = Reader::start(sheet, v + at).present();
    let n = records::follow(sheet, 0, v, piece.first, numbers::MOST_VERTICES).unwrap();
    2 + 2 * n
}

// The number of words of the cut list, which question 15 asks for.
pub fn list_words(sheet: &[u8], v: usize) -> usize
    requires fact_1 { ChainEnds sheet.now v }
    requires fact_2 { AllEnd sheet.now (piece_records sheet.now) }
    ensures { result ≡ length (list_words (sheet_pieces sheet.now)) }
{
    let mut total = 1;
    for at in PieceRecords::of(sheet, v) {
        total += piece_words(sheet, v, at);
    }
    total
}

// The piece of piece record `at`, from place `to` of the output: vertex count, mask, x, y pairs. Answers the place after it.
fn put_piece(sheet: &[u8], v: usize, at: usize, out: &mut [u16], to: usize) -> usize
    requires { PieceFits sheet.now v at out.old to }
    ensures { Put out.old out.new to (piece_words (piece_of sheet.now at)) result }
{
    let piece = Reader::start(sheet, v + at).present();
    let mut words = [0u16; numbers::MOST_WORDS];
    let n = records::gather(sheet, v, piece.first, &mut words).unwrap();
    out[to] = n as u16;
    out[to + 1] = piece.second;
    words::copy_in(&words[..2 * n], out, to + 2);
    to + 2 + 2 * n
}

// The pieces of the chain, from place 1 of the output.
fn put_pieces(sheet: &[u8], v: usize, out: &mut [u16])
    requires { PiecesRoom sheet.now v out.old }
    ensures { out.new ≡ sets out.old 1 (pieces_words (sheet_pieces sheet.now)) }
{
    let mut to = 1;
    for at in PieceRecords::of(sheet, v) {
        to = put_piece(sheet, v, at, out, to);
    }
}

// The cut list of a sheet of `count` pieces, from the start of the output.
pub fn put_list(sheet: &[u8], v: usize, count: u16, out: &mut [u16])
    requires fact_1 { PiecesRoom sheet.now v out.old }
    requires fact_2 { count ≡ length (sheet_pieces sheet.now) }
    ensures { out.new ≡ sets out.old 0 (list_words (sheet_pieces sheet.now)) }
{
    out[0] = count;
    put_pieces(sheet, v, out);
}
