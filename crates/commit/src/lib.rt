// The commit call.
#![tactic(auto)]

ghost use Rattle.std.specs.Prelude.{◌≡◌};
ghost use Rattle.defs.specs.Computing.Calls.{CommitStep};
ghost use Rattle.commit.specs.Strip.{as_commit};

use defs::{Position, Refusal};
use wanted::Wanted;

// A commit's answer, from the form of place's.
pub fn committed(a: Result<Position, Refusal>) -> Result<(), Refusal>
    ensures { result ≡ as_commit a }
{
    a.map(|_| ())
}

// The commit call.
pub fn commit(strip: &mut [u16], o: &[u16], p: Position, work: &mut [u16]) -> Result<(), Refusal>
    ensures { CommitStep strip.old o.now p work.old result strip.new work.new }
{
    let x = wanted::put(strip, o, Wanted::At(p), work);
    words::clear(work);
    committed(x.placing)
}
