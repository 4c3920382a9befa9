// Job sheets: numbers in bytes, where those of the front stand, questions 1 and 2.
#![tactic(auto)]

ghost use Rattle.std.specs.Prelude.{◌≡◌, ◌+◌, ◌*◌, ◌≤◌, ◌<◌, length};
ghost use Rattle.std.proofs.lemmas.List.Edits.{sets};
ghost use Rattle.defs.specs.Meaning.Sheet.{number_at};
ghost use Rattle.defs.specs.Computing.Sheets.{bytes_of, q1b, q2b};

// "Bytes 0 to 3: 4E 4A 01 00 hexadecimal."
pub const MARK: [u8; 4] = *b"NJ\x01\x00";

// Bytes of a sheet before its records, and of a record.
pub const FRONT_BYTES: usize = 16;

pub const RECORD_BYTES: usize = 6;

pub const MOST_BYTES: usize = 65536;

// Where the numbers of the front stand.
pub const WIDTH: usize = 4;

pub const RESOLUTION: usize = 6;

pub const COLUMNS: usize = 8;

pub const FIRST_PIECE: usize = 10;

pub const VERTICES: usize = 12;

pub const PIECES: usize = 14;

// "16-bit numbers, low byte first."
pub fn number(sheet: &[u8], at: usize) -> u16
    requires { at + 1 < length sheet.now }
    ensures { result ≡ number_at sheet.now at }
{
    u16::from_le_bytes([sheet[at], sheet[at + 1]])
}

pub fn set_number(out: &mut [u8], at: usize, n: u16)
    requires { at + 1 < length out.old }
    ensures { out.new ≡ sets out.old at (bytes_of n) }
{
    out[at..at + 2].copy_from_slice(&n.to_le_bytes());
}

// Question 1.
pub fn begins(sheet: &[u8]) -> bool
    ensures { result ≡ q1b sheet.now }
{
    FRONT_BYTES <= sheet.len() && sheet.starts_with(&MARK)
}

// Question 2.
#[tactic(auto, unfolding(defs::specs::Computing::Sheets::q2b))]
pub fn fits(sheet: &[u8]) -> bool
    requires { 16 ≤ length sheet.now }
    ensures { result ≡ q2b sheet.now }
{
    let v = usize::from(number(sheet, VERTICES));
    let p = usize::from(number(sheet, PIECES));
    sheet.len() == FRONT_BYTES + RECORD_BYTES * v + RECORD_BYTES * p && sheet.len() <= MOST_BYTES
}
