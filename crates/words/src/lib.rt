// Words copied from one array into another, and cleared.
#![tactic(auto)]

ghost use Rattle.std.specs.Prelude.{◌≡◌, ◌+◌, ◌≤◌, length};
ghost use Rattle.std.proofs.lemmas.List.Edits.{sets};
ghost use Rattle.defs.specs.Computing.Calls.{cleared};

// The words, from place `to` of the output.
pub fn copy_in(words: &[u16], out: &mut [u16], to: usize)
    requires { to + length words.now ≤ length out.old }
    ensures { out.new ≡ sets out.old to words.now }
{
    out[to..to + words.len()].copy_from_slice(words);
}

// "A work buffer is zero after each call."
pub fn clear(work: &mut [u16])
    ensures { work.new ≡ cleared work.old }
{
    work.fill(0);
}
