// The reader of a sheet: the three numbers of a record.
#![tactic(auto)]

ghost use Rattle.std.specs.Prelude.{◌≡◌, ◌+◌, ◌*◌, ◌≤◌, length};
ghost use Rattle.reader.specs.Records.{numbers_at};

// Record r begins at byte 10 + 6 r.
const BEFORE_RECORDS: usize = 10;

// A record's three numbers.
#[derive(Clone, Copy, Debug, PartialEq, Eq)]
pub struct Numbers {
    pub first: u16,
    pub second: u16,
    pub next: u16,
}

// The numbers of a record. Records are numbered through: vertex records from 1, piece records after them.
pub fn record_at(sheet: &[u8], at: usize) -> Numbers
    requires { 16 + 6 * at ≤ length sheet.now }
    ensures { result ≡ numbers_at sheet.now at }
{
    let from = BEFORE_RECORDS + fields::RECORD_BYTES * at;
    Numbers {
        first: fields::number(sheet, from),
        second: fields::number(sheet, from + 2),
        next: fields::number(sheet, from + 4),
    }
}

// The reader: it keeps the sheet and its present record.
#[derive(Clone, Copy)]
pub struct Reader<'a> {
    pub sheet: &'a [u8],
    pub at: usize,
}

impl<'a> Reader<'a> {
    // The reader of a sheet at a record.
    pub fn start(sheet: &'a [u8], at: usize) -> Reader<'a>
        ensures { (result.sheet ≡ sheet.entry) × (result.at ≡ at) }
    {
        Reader { sheet, at }
    }

    // The three numbers of the present record.
    pub fn present(self) -> Numbers
        requires { 16 + 6 * self.at ≤ length self.sheet.now }
        ensures { result ≡ numbers_at self.entry.sheet.now self.entry.at }
    {
        record_at(self.sheet, self.at)
    }

    // The same sheet at another record.
    pub fn moved(self, at: usize) -> Reader<'a>
        ensures { (result.sheet ≡ self.entry.sheet) × (result.at ≡ at) }
    {
        Reader { at, ..self }
    }
}
