// What program `lay` lends: a strip with so many records, output and work buffer. The strip has room for the most columns.
#![tactic(auto)]

ghost use Rattle.lent.specs.Strips.{StripWords};

const RECORDS: usize = 4000;

pub const WORK: usize = 9000;

pub const ENTRIES: usize = 800;

pub const STRIP: usize = 20101;

// The words of the strip to lend. Where the sheet is refused before 4 any number serves.
pub fn strip_words(sheet: &[u8]) -> usize
    ensures { StripWords sheet.now result }
{
    if sheet.len() < fields::FRONT_BYTES {
        return 0;
    }
    let columns = fields::number(sheet, fields::COLUMNS);
    if limits::MOST_COLUMNS < columns {
        return 0;
    }
    limits::LEADING_WORDS + usize::from(columns) + limits::RECORD_WORDS * RECORDS
}
