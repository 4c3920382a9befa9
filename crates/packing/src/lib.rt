// An answer of several numbers in one of 64 bits.
#![tactic(auto)]

ghost use Rattle.std.specs.Prelude.{ℕ, Result, Ok, Err};
ghost use Rattle.defs.specs.declared.Refusal.{Refusal};
ghost use Rattle.defs.specs.Answer.{opening, covering, placing, reading, laying, retracing};
ghost use Rattle.packing.specs.Packed.{Four, Packs, PacksLong, PacksWide, Wide};
ghost use Rattle.packing.specs.Refused.{refused, refused_wide, refused_long};

use defs::{EdgePair, Figures, Position, Refusal, Totals};

fn pack(a: u16, b: u16, c: u16, d: u16) -> u64
    ensures { Four result a b c d }
{
    a as u64 + 65536 * (b as u64) + 4294967296 * (c as u64) + 281474976710656 * (d as u64)
}

// A number of 16 bits after the number 0, and one of 32 bits, in the high ones.
fn pack_wide(v: u16, n: u32) -> u64
    ensures { Wide result 0 v n }
{
    65536 * (v as u64) + 4294967296 * (n as u64)
}

fn pack_refusal(f: Refusal) -> u64
    ensures { Four result f.number f.ordinal 0 0 }
{
    pack(f.number, f.ordinal, 0, 0)
}

// What a call grants: its bits, where the number 0 stands in the low ones. A refusal has the same bits for every call.
pub trait Granted {
    ghost packs: { ℕ → Result Self Refusal → Type 0 };

    fn bits(self) -> u64
        ensures { packs result (Ok self) };

    ghost refused: { (n : ℕ) (r : Refusal) → Four n r.number r.ordinal 0 0 → packs n (Err r) };
}

// Nothing.
impl Granted for () {
    ghost packs = { λ n a. Packs n (opening a) };

    ghost refused = { λ n r f. refused f };

    fn bits(self) -> u64 {
        pack(0, 0, 0, 0)
    }
}

// A number of 32 bits: runs, bytes or words.
impl Granted for u32 {
    ghost packs = { λ n a. PacksWide n (covering a) };

    ghost refused = { λ n r f. refused_wide f };

    fn bits(self) -> u64 {
        pack_wide(0, self)
    }
}

// Turn, column, height.
impl Granted for Position {
    ghost packs = { λ n a. Packs n (placing a) };

    ghost refused = { λ n r f. refused f };

    fn bits(self) -> u64 {
        pack(0, self.turn, self.column, self.height)
    }
}

// W, R and N.
impl Granted for Figures {
    ghost packs = { λ n a. Packs n (reading a) };

    ghost refused = { λ n r f. refused f };

    fn bits(self) -> u64 {
        pack(0, self.width, self.resolution, self.columns)
    }
}

// Pieces placed, used length.
impl Granted for Totals {
    ghost packs = { λ n a. PacksLong n (laying a) };

    ghost refused = { λ n r f. refused_long f };

    fn bits(self) -> u64 {
        pack_wide(self.placed, self.used)
    }
}

// The numbers of two edges, 0 and 0 for none.
impl Granted for Option<EdgePair> {
    ghost packs = { λ n a. Packs n (retracing a) };

    ghost refused = { λ n r f. refused f };

    fn bits(self) -> u64 {
        match self {
            None => 0,
            Some(p) => pack(0, p.first, p.second, 0),
        }
    }
}

// An answer in 64 bits.
pub fn pack_answer<A: Granted>(a: Result<A, Refusal>) -> u64
    ensures { A.packs result a }
{
    match a {
        Ok(g) => g.bits(),
        Err(r) => pack_refusal(r),
    }
}
