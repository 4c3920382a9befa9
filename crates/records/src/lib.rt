// Job sheets: chains of records, questions 6 and 7.
#![tactic(auto)]

ghost use Rattle.std.specs.Prelude.{◌+◌, ◌*◌, ◌≤◌, ◌<◌, length};
ghost use Rattle.defs.specs.Meaning.Sheet.{sheet_v, sheet_p};
ghost use Rattle.reader.specs.Records.{record_number};
ghost use Rattle.records.specs.Records.{Chains, PieceChains, Gathers};

use reader::Reader;

pub const MOST_PIECES: usize = 200;

// The chain from record `first` of the records after `base` others: whether it stays in 1 to `most` and ends within `limit`, and
// how many records it has. The count bounds it, so a loop is broken too.
pub fn follow(sheet: &[u8], base: usize, most: usize, first: u16, limit: usize) -> Option<usize>
    requires { 16 + 6 * (base + most) ≤ length sheet.now }
    ensures { Chains (λ x. record_number sheet.now (base + x) 2) most limit first result }
{
    let mut at = first as usize;
    let mut left = limit;
    while 0 < at {
        if left == 0 || most < at {
            return None;
        }
        at = Reader::start(sheet, base + at).present().next as usize;
        left -= 1;
    }
    Some(limit - left)
}

// Question 6, with the number of pieces.
pub fn piece_chain(sheet: &[u8]) -> Option<usize>
    requires { 16 + 6 * (sheet_v sheet.now + sheet_p sheet.now) ≤ length sheet.now }
    ensures { PieceChains sheet.now result }
{
    let v = fields::number(sheet, fields::VERTICES) as usize;
    let p = fields::number(sheet, fields::PIECES) as usize;
    let first = fields::number(sheet, fields::FIRST_PIECE);
    follow(sheet, v, p, first, MOST_PIECES)
}

// Question 7 but for the least count, with the vertices of the chain from record `first` written as x, y pairs.
pub fn gather(
    sheet: &[u8],
    vertices: usize,
    first: u16,
    words: &mut [u16; numbers::MOST_WORDS],
) -> Option<usize>
    requires { 16 + 6 * vertices ≤ length sheet.now }
    ensures { Gathers sheet.now vertices first words.old words.new result }
{
    let mut at = first as usize;
    let mut k = 0;
    while 0 < at {
        if numbers::MOST_VERTICES <= k || vertices < at {
            return None;
        }
        let n = Reader::start(sheet, at).present();
        words[2 * k] = n.first;
        words[2 * k + 1] = n.second;
        at = n.next as usize;
        k += 1;
    }
    Some(k)
}
