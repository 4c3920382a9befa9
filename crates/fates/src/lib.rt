// A piece's fate in a job: its entry in the output, and what it adds to the job's totals.
#![tactic(auto)]

ghost use Rattle.std.specs.Prelude.{◌≡◌, ◌*◌, ◌-◌, ◌≤◌, length};
ghost use Rattle.std.proofs.lemmas.List.Edits.{sets};
ghost use Rattle.defs.specs.declared.Position.{Position};
ghost use Rattle.defs.specs.Answer.{fate_words};
ghost use Rattle.defs.specs.Computing.Lay.{fate_of};
ghost use Rattle.outline.specs.Vertex.{Lent, BoundsOf};
ghost use Rattle.fates.specs.Fates.{edge_of, lower_by, tallied, Few};

use defs::{Entry, Fate, Position, Refusal};
use outline::Bounds;

// The ordinal of the next piece, the pieces placed and the length used so far, whether the second table is current, and before which right
// edge a copy of the last piece has no free position.
#[derive(Clone, Copy)]
pub struct Tally {
    pub ordinal: u16,
    pub placed: u16,
    pub used: u32,
    pub second: bool,
    pub lower: u32,
}

pub fn fate_of(a: Result<Position, Refusal>) -> Fate
    ensures { result ≡ fate_of a }
{
    match a {
        Ok(p) => Fate::Placed(p),
        Err(r) => Fate::Refused(r.number),
    }
}

// "Output is four words a piece: 0 or its number, turn, column, height (zeros if refused)."
pub fn put_entry(e: Entry, out: &mut [u16])
    requires { (1 ≤ e.ordinal) × (4 * e.ordinal ≤ length out.old) }
    ensures { out.new ≡ sets out.old (4 * (e.ordinal - 1)) (fate_words e.fate) }
{
    let at = numbers::ENTRY_WORDS * (e.ordinal as usize - 1);
    match e.fate {
        Fate::Placed(p) => freerecords::put_four(out, at, 0, p.turn, p.column, p.height),
        Fate::Refused(n) => freerecords::put_four(out, at, n, 0, 0, 0),
    }
}

// The right edge of a piece that is placed, else 0.
pub fn right_of(o: &[u16], b: Bounds, r: u16, a: Result<Position, Refusal>) -> u32
    requires fact_1 { Lent o.now }
    requires fact_2 { BoundsOf o.now b }
    requires fact_3 { ((p : Position) → a ≡ Ok p → p.turn ≤ 3) }
    ensures { result ≡ edge_of r o.now a }
{
    match a {
        Ok(p) => {
            let e = outline::extent_of(o, b, p.turn);
            ranks::right_edge(p.column, e.w, r)
        }
        Err(f) => 0,
    }
}

// Before which right edge a copy has no free position, after an answer: 13 says that there is none at all.
fn lower_of(a: Result<Position, Refusal>, right: u32) -> u32
    ensures { result ≡ lower_by a right }
{
    match a {
        Ok(p) => right,
        Err(r) => { if r.number == 13 { ranks::NO_EDGE } else { 0 } }
    }
}

// The tally after an answer, the right edge of the piece with it.
pub fn counted(t: Tally, a: Result<Position, Refusal>, right: u32) -> Tally
    requires { Few t }
    ensures { result ≡ tallied t a right }
{
    let next = Tally {
        ordinal: t.ordinal + 1,
        used: t.used.max(right),
        lower: lower_of(a, right),
        ..t
    };
    if a.is_ok() {
        Tally {
            placed: t.placed + 1,
            second: !t.second,
            ..next
        }
    } else {
        next
    }
}
