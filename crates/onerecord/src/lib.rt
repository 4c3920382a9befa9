// One record of a sheet, put into its bytes.
#![tactic(auto)]

ghost use Rattle.std.specs.Prelude.{◌≡◌, ◌+◌, ◌≤◌, ◌<◌, length};
ghost use Rattle.std.proofs.lemmas.List.Edits.{sets};
ghost use Rattle.defs.specs.Computing.Sheets.{record_bytes};
ghost use Rattle.onerecord.specs.Link.{link_of};

// One record of three numbers.
pub fn set_record(out: &mut [u8], to: usize, x: u16, y: u16, z: u16)
    requires { to + 6 ≤ length out.old }
    ensures { out.new ≡ sets out.old to (record_bytes x y z) }
{
    fields::set_number(out, to, x);
    fields::set_number(out, to + 2, y);
    fields::set_number(out, to + 4, z);
}

// The next of record r, where `left` records of its chain are left with it.
pub fn link(r: usize, left: usize) -> u16
    requires { r + left < 65537 }
    ensures { result ≡ link_of r left }
{
    if left <= 1 { 0 } else { (r + 1) as u16 }
}
