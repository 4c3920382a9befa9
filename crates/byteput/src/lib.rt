// Place, ask and commit on buffers passed as bytes: the same calls on local words. Strip and outline are copied, a work buffer is not, since
// only its number of words matters to a call: a local one of as many words, or of as many as are used of one, stands in for it.
#![tactic(auto)]

ghost use Rattle.std.specs.Prelude.{◌≡◌, ◌/◌, ◌≤◌, min, length};
ghost use Rattle.defs.specs.Computing.Bytes.{most_work, PlaceBytesStep, AskBytesStep, CommitBytesStep};
ghost use Rattle.byteput.specs.Steps.{PutWords, PutCopy, PutBack};

use defs::{PlacingTries, Position, Refusal};
use wanted::Wanted;

// One word more than the longest strip has, so that a longer one is as wrong in its length as it was.
pub const STRIP_ROOM: usize = 68102;

// One word more than the longest outline has.
const OUTLINE_ROOM: usize = 129;

// A work buffer with more words than this needs more stack.
pub const SMALL_WORK: usize = 9000;

// Three words for each run of the outline that has most, with no gap.
pub const MOST_WORK: usize = 1536000;

// Copies strip and outline into words, and calls on these.
fn put_words(
    strip: &[u8],
    outline: &[u8],
    wanted: Wanted,
    words: &mut [u16],
    corners: &mut [u16],
    work: &mut [u16],
) -> PlacingTries
    requires fact_1 { length words.old ≡ min (length strip.now / 2) 68102 }
    requires fact_2 { length corners.old ≡ min (length outline.now / 2) 129 }
    ensures { PutWords strip.now outline.now wanted (length work.old) result.placing result.tries words.new }
{
    bytewords::take_words(strip, words);
    bytewords::take_words(outline, corners);
    wanted::put(words, corners, wanted, work)
}

// Lends words for the outline.
fn put_with(
    strip: &[u8],
    outline: &[u8],
    wanted: Wanted,
    words: &mut [u16],
    work: &mut [u16],
) -> PlacingTries
    requires { length words.old ≡ min (length strip.now / 2) 68102 }
    ensures { PutWords strip.now outline.now wanted (length work.old) result.placing result.tries words.new }
{
    let mut corners = [0u16; OUTLINE_ROOM];
    let m = (outline.len() / 2).min(OUTLINE_ROOM);
    put_words(strip, outline, wanted, words, &mut corners[..m], work)
}

// Lends a work buffer of at most `ROOM` words, where no more of them are used.
fn put_in<const ROOM: usize>(
    strip: &[u8],
    outline: &[u8],
    wanted: Wanted,
    words: &mut [u16],
    room: usize,
) -> PlacingTries
    requires fact_1 { length words.old ≡ min (length strip.now / 2) 68102 }
    requires fact_2 { min room ROOM ≡ min room most_work }
    requires fact_3 { ROOM ≤ most_work }
    ensures { PutWords strip.now outline.now wanted (min room most_work) result.placing result.tries words.new }
{
    let mut work = [0u16; ROOM];
    let n = room.min(ROOM);
    put_with(strip, outline, wanted, words, &mut work[..n])
}

// The call on a copy of the strip, and the work buffer cleared. Where half of the work buffer has as many words as are used of one, half
// of it is lent. So the function calls itself, and not as the last thing that it does: the compiler takes no function with a large array
// into such a one, else a call with a small work buffer would need as much stack as one with a large one.
fn put_copy(
    strip: &[u8],
    outline: &[u8],
    wanted: Wanted,
    words: &mut [u16],
    work: &mut [u8],
) -> PlacingTries
    requires { length words.old ≡ min (length strip.now / 2) 68102 }
    ensures { PutCopy strip.now outline.now wanted work.old result.placing result.tries words.new work.new }
{
    let n = work.len() / 2;
    if 2 * MOST_WORK <= n {
        let a = put_copy(strip, outline, wanted, words, &mut work[..n]);
        bytewords::clear_words(work);
        return a;
    }
    bytewords::clear_words(work);
    if n <= SMALL_WORK {
        return put_in::<SMALL_WORK>(strip, outline, wanted, words, n);
    }
    put_in::<MOST_WORK>(strip, outline, wanted, words, n)
}

// The call on a copy of the strip, and the copy put back.
fn put_back(
    strip: &mut [u8],
    outline: &[u8],
    wanted: Wanted,
    words: &mut [u16],
    work: &mut [u8],
) -> PlacingTries
    requires { length words.old ≡ min (length strip.old / 2) 68102 }
    ensures { PutBack strip.old outline.now wanted work.old result.placing result.tries strip.new work.new }
{
    let x = put_copy(strip, outline, wanted, words, work);
    if x.placing.is_ok() {
        bytewords::put_words(words, strip);
    }
    x
}

// The place call.
pub fn place_bytes(strip: &mut [u8], outline: &[u8], mask: u16, work: &mut [u8]) -> PlacingTries
    ensures { PlaceBytesStep strip.old outline.now mask work.old result.placing result.tries strip.new work.new }
{
    let mut words = [0u16; STRIP_ROOM];
    let n = (strip.len() / 2).min(STRIP_ROOM);
    put_back(strip, outline, Wanted::Best(mask), &mut words[..n], work)
}

// The ask call: place on a copy of the strip that is not put back.
pub fn ask_bytes(strip: &[u8], outline: &[u8], mask: u16, work: &mut [u8]) -> PlacingTries
    ensures { AskBytesStep strip.now outline.now mask work.old result.placing result.tries strip.exit.now work.new }
{
    let mut words = [0u16; STRIP_ROOM];
    let n = (strip.len() / 2).min(STRIP_ROOM);
    put_copy(strip, outline, Wanted::Best(mask), &mut words[..n], work)
}

// The commit call.
pub fn commit_bytes(
    strip: &mut [u8],
    outline: &[u8],
    p: Position,
    work: &mut [u8],
) -> Result<(), Refusal>
    ensures { CommitBytesStep strip.old outline.now p work.old result strip.new work.new }
{
    let mut words = [0u16; STRIP_ROOM];
    let n = (strip.len() / 2).min(STRIP_ROOM);
    let x = put_back(strip, outline, Wanted::At(p), &mut words[..n], work);
    commit::committed(x.placing)
}
