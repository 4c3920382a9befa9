// Free records of a strip, one after another.
#![tactic(auto)]

ghost use Rattle.std.specs.Prelude.{◌≡◌, [], ◌∷◌, ◌+◌, ◌*◌, ◌-◌, ◌≤◌, ◌<◌, length};
ghost use Rattle.std.proofs.lemmas.List.Edits.{sets};
ghost use Rattle.defs.specs.Computing.Words.{free_words};
ghost use Rattle.freerecords.specs.Stored.{FreeFit, parts_of};

// A word has so many values.
const WORD: u64 = 65536;

// Four words from word `at` on: a record's column, low, high and next, or the figures at the start.
pub fn put_four(strip: &mut [u16], at: usize, a: u16, b: u16, c: u16, d: u16)
    requires { at + 4 ≤ length strip.old }
    ensures { strip.new ≡ sets strip.old at (a ∷ b ∷ c ∷ d ∷ []) }
{
    strip[at] = a;
    strip[at + 1] = b;
    strip[at + 2] = c;
    strip[at + 3] = d;
}

// The four words that v is made of, lowest first, from word `at` on. The compiler makes one store of them.
fn put_parts(strip: &mut [u16], at: usize, v: u64)
    requires { at + 4 ≤ length strip.old }
    ensures { strip.new ≡ sets strip.old at (parts_of v) }
{
    let w = v / WORD;
    let x = w / WORD;
    strip[at] = (v % WORD) as u16;
    strip[at + 1] = (w % WORD) as u16;
    strip[at + 2] = (x % WORD) as u16;
    strip[at + 3] = (x / WORD) as u16;
}

// The free records t + 1 to q of a strip of n columns, from word `at` on. The last is put after the loop, as in put_column, and the
// others as one number each: the compiler then stores several records at once.
pub fn put_free(strip: &mut [u16], at: usize, n: u16, t: usize, q: usize)
    requires { FreeFit t q at (length strip.old) }
    ensures { strip.new ≡ sets strip.old at (free_words n (t + 1) (q - t)) }
{
    if t == q {
        return;
    }
    let mut p = at;
    for i in t..q - 1 {
        let next = (i + 2) as u64;
        put_parts(strip, p, n as u64 + WORD * WORD * WORD * next);
        p += limits::RECORD_WORDS;
    }
    put_four(strip, p, n, 0, 0, 0);
}
