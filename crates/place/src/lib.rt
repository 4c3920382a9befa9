// The place call.
#![tactic(auto)]

ghost use Rattle.defs.specs.Computing.Calls.{PlaceStep};

use defs::PlacingTries;
use wanted::Wanted;

// The place call.
pub fn place(strip: &mut [u16], o: &[u16], mask: u16, work: &mut [u16]) -> PlacingTries
    ensures { PlaceStep strip.old o.now mask work.old result.placing result.tries strip.new work.new }
{
    let a = wanted::put(strip, o, Wanted::Best(mask), work);
    words::clear(work);
    a
}
