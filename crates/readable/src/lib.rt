// The text of a sheet: a line `strip W R N`, then for each piece a line `piece MASK x,y x,y x,y ..`, in units. A gap that stands in front
// of the sheet comes after the strip, as it stands there, in millimetres.
#![tactic(auto)]

ghost use Rattle.std.specs.Prelude.{◌+◌, ◌*◌, ◌/◌, ◌≤◌, length, IfSome};
ghost use Rattle.words.specs.Put.{Put};
ghost use Rattle.readable.specs.Words.{vertex_text};

use defs::Figures;

// The text of every sheet fits.
pub const TEXT_ROOM: usize = 160000;

// The bytes of the line of a piece, but for its vertices, and of a vertex, at most.
const PIECE_ROOM: usize = 12;

const VERTEX_ROOM: usize = 12;

// x and y after a space, with a comma between them.
fn put_vertex(out: &mut [u8], at: usize, x: u16, y: u16) -> usize
    requires { at + 12 ≤ length out.old }
    ensures text { Put out.old out.new at (vertex_text x y) result }
    ensures room { result ≤ at + 12 }
{
    out[at] = b' ';
    let a = print::put_decimal(out, at + 1, x);
    out[a] = b',';
    print::put_decimal(out, a + 1, y)
}

// The vertices of a piece.
fn put_vertices(out: &mut [u8], at: usize, vertices: &[u16]) -> usize
    requires { at + 12 * (length vertices.now / 2) ≤ length out.old }
    ensures { result ≤ at + 12 * (length vertices.now / 2) }
{
    let mut to = at;
    for v in vertices.chunks_exact(2) {
        to = put_vertex(out, to, v[0], v[1]);
    }
    to
}

// A piece of a cut list: the words of its vertices are their x and y in turn.
#[derive(Clone, Copy)]
struct Piece<'a> {
    mask: u16,
    vertices: &'a [u16],
    ghost counted: { length vertices.now ≤ 131070 },
}

// The line of a piece, if there is room for it.
fn put_piece(out: &mut [u8], at: usize, piece: Piece) -> Option<usize>
    requires { at ≤ length out.old }
    ensures { IfSome result (λ r. r ≤ length out.new) }
{
    let count = piece.vertices.len() / 2;
    if out.len() - at < PIECE_ROOM + VERTEX_ROOM * count {
        return None;
    }
    let a = print::put_words(out, at, b"piece", &[piece.mask]);
    let b = put_vertices(out, a, piece.vertices);
    Some(print::end_line(out, b))
}

// The piece at the start of a list's words, and the words after it, if they hold one.
fn split_piece(words: &[u16]) -> Option<(Piece<'_>, &[u16])> {
    let [count, mask, rest @ ..] = words else {
        return None;
    };
    let n = 2 * usize::from(*count);
    if rest.len() < n {
        return None;
    }
    let (vertices, after) = rest.split_at(n);
    Some((
        Piece {
            mask: *mask,
            vertices,
        },
        after,
    ))
}

// The lines of the pieces of a cut list, as far as there is room.
fn put_pieces(out: &mut [u8], at: usize, list: &[u16]) -> usize
    requires list { 1 ≤ length list.now }
    requires room { at ≤ length out.old }
    ensures { result ≤ length out.new }
{
    let mut rest = &list[1..];
    let mut to = at;
    for _ in 0..list[0] {
        let Some((piece, after)) = split_piece(rest) else {
            break;
        };
        let Some(end) = put_piece(out, to, piece) else {
            break;
        };
        to = end;
        rest = after;
    }
    to
}

// The text of a cut list.
fn put_list(out: &mut [u8], f: Figures, gap: u16, list: &[u16]) -> usize
    requires list { 1 ≤ length list.now }
    requires room { 128 ≤ length out.old }
    ensures { result ≤ length out.new }
{
    let a = print::put_words(out, 0, b"strip", &[f.width, f.resolution, f.columns]);
    let b = print::end_line(out, a);
    let c = gapline::put_gap(out, b, gap);
    put_pieces(out, c, list)
}

fn show_lent(sheet: &[u8], gap: u16, list: &mut [u16], out: &mut [u8]) -> usize
    requires list { 1 ≤ length list.old }
    requires room { 128 ≤ length out.old }
    ensures { result ≤ length out.new }
{
    match reads::read(sheet, list) {
        Ok(f) => put_list(out, f, gap, list),
        Err(r) => {
            let a = print::put_refusal(out, r);
            print::end_line(out, a)
        }
    }
}

// What program `show` prints for this standard input, at the start of the output. Answers the number of its bytes.
pub fn show_text(input: &[u8], out: &mut [u8]) -> usize
    ensures { result ≤ length out.new }
{
    if out.len() < print::MESSAGE_ROOM {
        return 0;
    }
    let mut list = [0u16; numbers::LIST_WORDS];
    let front = gapline::front_of(input);
    show_lent(&input[front.sheet..], front.gap, &mut list, out)
}
