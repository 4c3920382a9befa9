// The ask call: what place would answer. The strip is lent to be read, and no call below it can write one.
#![tactic(auto)]

ghost use Rattle.std.specs.Prelude.{◌≡◌, length};
ghost use Rattle.defs.specs.Computing.Calls.{place_answer, place_tries, AskStep};

use defs::PlacingTries;
use wanted::Wanted;

// Lends the next table, as wanted::put does (a closure that is lent it would need a contract as long as both bodies), into which the piece is entered for question 14; it is entered nowhere else. Leaves words in the work buffer.
fn look(strip: &[u16], o: &[u16], mask: u16, work: &mut [u16]) -> PlacingTries
    ensures fact_1 { result.placing ≡ place_answer strip.now o.now mask (length work.old) }
    ensures fact_2 { result.tries ≡ place_tries strip.now o.now mask (length work.old) }
{
    let mut first = [0u16; limits::FIRSTS];
    let mut lows = [0u16; position::NEXT_RUNS];
    let mut highs = [0u16; position::NEXT_RUNS];
    wanted::look(
        strip,
        o,
        Wanted::Best(mask),
        work,
        &mut first,
        &mut lows,
        &mut highs,
    )
}

// The ask call. The strip after it is the strip before it.
pub fn ask(strip: &[u16], o: &[u16], mask: u16, work: &mut [u16]) -> PlacingTries
    ensures { AskStep strip.now o.now mask work.old result.placing result.tries strip.exit.now work.new }
{
    let x = look(strip, o, mask, work);
    words::clear(work);
    x
}
