// The calls as C functions: an answer of several numbers in one of 64 bits; place and ask have their tries beside it. A call whose
// arguments or answer have changed has the number of the header's edition in its name, so that a program compiled against an older header
// does not link.
#![tactic(auto)]

ghost use Rattle.packing.specs.Steps.{OpenPacked, CoverPacked, PlacePacked, AskPacked, CommitPacked, ReadPacked, WritePacked, LayPacked, RetracePacked, PathReadPacked, PathWritePacked, OpenBytesPacked, PlaceBytesPacked, AskBytesPacked, CommitBytesPacked, LayBytesPacked};

use defs::Position;

// What a call answers whose tries are told with every answer.
#[repr(C)]
#[derive(Clone, Copy)]
pub struct Tried {
    pub answer: u64,
    pub tries: u32,
}

// The open call.
#[unsafe(no_mangle)]
pub extern "C" fn vikelodu_open_4(
    width: u16,
    resolution: u16,
    columns: u16,
    gap: u16,
    strip: &mut [u16],
) -> u64
    ensures { OpenPacked width resolution columns gap strip.old result strip.new }
{
    let a = open::open(width, resolution, columns, gap, strip);
    packing::pack_answer(a)
}

// The place call: turn, column and height after the number 0; and the tries.
#[unsafe(no_mangle)]
pub extern "C" fn vikelodu_place_5(
    strip: &mut [u16],
    outline: &[u16],
    mask: u16,
    work: &mut [u16],
) -> Tried
    ensures { PlacePacked strip.old outline.now mask work.old result.answer result.tries strip.new work.new }
{
    let a = place::place(strip, outline, mask, work);
    Tried {
        answer: packing::pack_answer(a.placing),
        tries: a.tries,
    }
}

// The ask call: turn, column and height after the number 0; and the tries. The strip is only read.
#[unsafe(no_mangle)]
pub extern "C" fn vikelodu_ask_5(
    strip: &[u16],
    outline: &[u16],
    mask: u16,
    work: &mut [u16],
) -> Tried
    ensures { AskPacked strip.now outline.now mask work.old result.answer result.tries strip.exit.now work.new }
{
    let a = ask::ask(strip, outline, mask, work);
    Tried {
        answer: packing::pack_answer(a.placing),
        tries: a.tries,
    }
}

// The commit call.
#[unsafe(no_mangle)]
pub extern "C" fn vikelodu_commit(
    strip: &mut [u16],
    outline: &[u16],
    turn: u16,
    column: u16,
    height: u16,
    work: &mut [u16],
) -> u64
    ensures { CommitPacked strip.old outline.now (record { turn = turn; column = column; height = height }) work.old result strip.new work.new }
{
    let p = Position {
        turn,
        column,
        height,
    };
    let a = commit::commit(strip, outline, p, work);
    packing::pack_answer(a)
}

// The cover call: the number of runs in the high 32 bits.
#[unsafe(no_mangle)]
pub extern "C" fn vikelodu_cover_4(
    outline: &[u16],
    turn: u16,
    resolution: u16,
    gap: u16,
    output: &mut [u16],
) -> u64
    ensures { CoverPacked outline.now turn resolution gap output.old result output.new }
{
    let a = cover::cover(outline, turn, resolution, gap, output);
    packing::pack_answer(a)
}

// The read call: W, R and N after the number 0.
#[unsafe(no_mangle)]
pub extern "C" fn vikelodu_read(sheet: &[u8], output: &mut [u16]) -> u64
    ensures { ReadPacked sheet.now output.old result output.new }
{
    let a = reads::read(sheet, output);
    packing::pack_answer(a)
}

// The write call: the sheet's size in bytes in the high 32 bits.
#[unsafe(no_mangle)]
pub extern "C" fn vikelodu_write(
    width: u16,
    resolution: u16,
    columns: u16,
    list: &[u16],
    output: &mut [u8],
) -> u64
    ensures { WritePacked width resolution columns list.now output.old result output.new }
{
    let a = writes::write(width, resolution, columns, list, output);
    packing::pack_answer(a)
}

// The lay call: pieces placed after the number 0; used length in the high 32 bits.
#[unsafe(no_mangle)]
pub extern "C" fn vikelodu_lay_7(
    sheet: &[u8],
    gap: u16,
    strip: &mut [u16],
    output: &mut [u16],
    work: &mut [u16],
) -> u64
    ensures { LayPacked sheet.now gap strip.old output.old work.old result strip.new output.new work.new }
{
    let a = laying::lay(sheet, gap, strip, output, work);
    packing::pack_answer(a)
}

// The retrace call: the numbers of the first two edges that share a stretch after the number 0, or 0 and 0.
#[unsafe(no_mangle)]
pub extern "C" fn vikelodu_retrace(outline: &[u16]) -> u64
    ensures { RetracePacked outline.now result }
{
    let a = retrace::retrace(outline);
    packing::pack_answer(a)
}

// The call that reads a path: the outline's words in the high 32 bits.
#[unsafe(no_mangle)]
pub extern "C" fn vikelodu_read_path(path: &[u8], output: &mut [u16]) -> u64
    ensures { PathReadPacked path.now output.old result output.new }
{
    let a = readpath::read_path(path, output);
    packing::pack_answer(a)
}

// The call that writes a path: its bytes in the high 32 bits.
#[unsafe(no_mangle)]
pub extern "C" fn vikelodu_write_path(outline: &[u16], output: &mut [u8]) -> u64
    ensures { PathWritePacked outline.now output.old result output.new }
{
    let a = writepath::write_path(outline, output);
    packing::pack_answer(a)
}

// The open call on a strip passed as bytes.
#[unsafe(no_mangle)]
pub extern "C" fn vikelodu_open_bytes_4(
    width: u16,
    resolution: u16,
    columns: u16,
    gap: u16,
    strip: &mut [u8],
) -> u64
    ensures { OpenBytesPacked width resolution columns gap strip.old result strip.new }
{
    let a = bytecalls::open_bytes(width, resolution, columns, gap, strip);
    packing::pack_answer(a)
}

// The place call on buffers passed as bytes.
#[unsafe(no_mangle)]
pub extern "C" fn vikelodu_place_bytes_5(
    strip: &mut [u8],
    outline: &[u8],
    mask: u16,
    work: &mut [u8],
) -> Tried
    ensures { PlaceBytesPacked strip.old outline.now mask work.old result.answer result.tries strip.new work.new }
{
    let a = byteput::place_bytes(strip, outline, mask, work);
    Tried {
        answer: packing::pack_answer(a.placing),
        tries: a.tries,
    }
}

// The ask call on buffers passed as bytes.
#[unsafe(no_mangle)]
pub extern "C" fn vikelodu_ask_bytes_5(
    strip: &[u8],
    outline: &[u8],
    mask: u16,
    work: &mut [u8],
) -> Tried
    ensures { AskBytesPacked strip.now outline.now mask work.old result.answer result.tries strip.exit.now work.new }
{
    let a = byteput::ask_bytes(strip, outline, mask, work);
    Tried {
        answer: packing::pack_answer(a.placing),
        tries: a.tries,
    }
}

// The commit call on buffers passed as bytes.
#[unsafe(no_mangle)]
pub extern "C" fn vikelodu_commit_bytes(
    strip: &mut [u8],
    outline: &[u8],
    turn: u16,
    column: u16,
    height: u16,
    work: &mut [u8],
) -> u64
    ensures { CommitBytesPacked strip.old outline.now (record { turn = turn; column = column; height = height }) work.old result strip.new work.new }
{
    let p = Position {
        turn,
        column,
        height,
    };
    let a = byteput::commit_bytes(strip, outline, p, work);
    packing::pack_answer(a)
}

// The lay call on buffers passed as bytes.
#[unsafe(no_mangle)]
pub extern "C" fn vikelodu_lay_bytes_7(
    sheet: &[u8],
    gap: u16,
    strip: &mut [u8],
    output: &mut [u8],
    work: &mut [u8],
) -> u64
    ensures { LayBytesPacked sheet.now gap strip.old output.old work.old result strip.new output.new work.new }
{
    let a = bytecalls::lay_bytes(sheet, gap, strip, output, work);
    packing::pack_answer(a)
}
