// Lays the pieces of the chain, one after another.
#![tactic(auto)]

ghost use Rattle.std.specs.Prelude.{length};
ghost use Rattle.tables.specs.Flat.{table_of};
ghost use Rattle.sequence.specs.Chained.{JobReady, JobLaid};

use cutlist::PieceRecords;
use defs::Figures;
use fates::Tally;

// Lays the pieces of the chain. A copy of the piece before it is searched from that one's right edge on.
pub fn lay_chain(
    sheet: &[u8],
    v: usize,
    g: Figures,
    gap: u16,
    q: usize,
    first: &mut [u16],
    lows: &mut [u16],
    highs: &mut [u16],
    first2: &mut [u16],
    lows2: &mut [u16],
    highs2: &mut [u16],
    out: &mut [u16],
    work: &mut [u16],
) -> Tally
    requires { JobReady sheet.now v first.old lows.old highs.old first2.old lows2.old highs2.old out.old g.width g.resolution g.columns gap q }
    ensures { JobLaid sheet.now (table_of first.old lows.old highs.old g.columns)
        first.new lows.new highs.new first2.new lows2.new highs2.new
        out.old out.new g.width g.resolution g.columns gap q (length work.old) result }
{
    let mut last = fields::number(sheet, fields::FIRST_PIECE) as usize;
    let mut t = Tally {
        ordinal: 1,
        placed: 0,
        used: 0,
        second: false,
        lower: 0,
    };
    for at in PieceRecords::of(sheet, v) {
        let lower = copies::start_of(sheet, v, last, at, t.lower);
        t = piece::lay_piece(
            sheet, v, at, lower, g, gap, q, t, first, lows, highs, first2, lows2, highs2, out, work,
        );
        last = at;
    }
    t
}
