// Questions 7 to 11 of the pieces of a sheet, in the order of their chain.
#![tactic(auto)]

ghost use Rattle.std.specs.Prelude.{◌≤◌};
ghost use Rattle.defs.specs.Meaning.Sheet.{sheet_r};
ghost use Rattle.cutlist.specs.Pieces.{PieceAt, ChainEnds};
ghost use Rattle.pieceno.specs.Refused.{PieceAsked, Asked};

use cutlist::PieceRecords;
use defs::{Refusal, refused};
use reader::Reader;

// Questions 7 to 11 of the piece of piece record `at`: the first that gets "no". The outline is lent from a local.
fn ask_piece(sheet: &[u8], v: usize, at: usize) -> Result<(), u16>
    requires fact_1 { PieceAt sheet.now v at }
    requires fact_2 { 1 ≤ sheet_r sheet.now }
    ensures { PieceAsked sheet.now at result }
{
    let piece = Reader::start(sheet, v + at).present();
    let mask = piece.second;
    let mut words = [0u16; numbers::MOST_WORDS];
    let Some(n) = records::gather(sheet, v, piece.first, &mut words) else {
        return Err(7);
    };
    asked::ask_outline(&words[..2 * n], checks::nine(mask), mask)
}

// Questions 7 to 11, piece by piece: the first that gets "no", with the piece's place in the chain.
pub fn first_no(sheet: &[u8], v: usize) -> Result<(), Refusal>
    requires fact_1 { ChainEnds sheet.now v }
    requires fact_2 { 1 ≤ sheet_r sheet.now }
    ensures { Asked sheet.now result }
{
    let mut ordinal = 1;
    for at in PieceRecords::of(sheet, v) {
        if let Err(number) = ask_piece(sheet, v, at) {
            return refused(number, ordinal);
        }
        ordinal += 1;
    }
    Ok(())
}
