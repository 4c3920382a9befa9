// The open call: a strip with all columns empty and all records free.
#![tactic(auto)]

ghost use Rattle.std.specs.Prelude.{◌≡◌, length};
ghost use Rattle.defs.specs.Computing.Calls.{OpenStep, opened_strip};
ghost use Rattle.encode.specs.Room.{Room};

use defs::{Figures, Refusal, refused};

// The strip of these figures and this gap whose columns are empty. No old word of it is looked at.
fn put_empty(strip: &mut [u16], g: Figures, gap: u16)
    requires { Room g.columns 0 (length strip.old) }
    ensures { strip.new ≡ opened_strip g.width g.resolution g.columns gap (length strip.old) }
{
    let first = [0u16; limits::FIRSTS];
    let none = [0u16; 0];
    encode::encode(strip, g, gap, &first, &none, &none, 0);
}

// The open call.
pub fn open(w: u16, r: u16, n: u16, g: u16, strip: &mut [u16]) -> Result<(), Refusal>
    ensures { OpenStep w r n g strip.old result strip.new }
{
    limits::figures(w, r, n, g)?;
    if !limits::length_fits(n, strip.len()) {
        return refused(4, 0);
    }
    let figures = Figures {
        width: w,
        resolution: r,
        columns: n,
    };
    put_empty(strip, figures, g);
    Ok(())
}
