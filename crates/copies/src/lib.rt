// Copies: pieces of a sheet with the same outline and the same mask, one after the other.
#![tactic(auto)]

ghost use Rattle.std.specs.Prelude.{◌≡◌, true, ◌+◌, ◌*◌, ◌≤◌, length};
ghost use Rattle.cutlist.specs.Pieces.{PieceAt};
ghost use Rattle.copies.specs.Copy.{SameVertices, StartsAt};

use reader::{Numbers, Reader};

// Whether two vertices are the same.
fn same_vertex(m: Numbers, n: Numbers) -> bool
    ensures { result ≡ true → (m.first ≡ n.first) × (m.second ≡ n.second) }
{
    m.first == n.first && m.second == n.second
}

// Whether the chains from vertex records x and y have the same vertices.
fn same_vertices(sheet: &[u8], v: usize, x: u16, y: u16) -> bool
    requires { 16 + 6 * v ≤ length sheet.now }
    ensures { SameVertices sheet.now x y result }
{
    let mut i = x as usize;
    let mut j = y as usize;
    let mut left = numbers::MOST_VERTICES;
    while 0 < i {
        if left == 0 || v < i || j == 0 || v < j {
            return false;
        }
        let m = Reader::start(sheet, i).present();
        let n = Reader::start(sheet, j).present();
        if !same_vertex(m, n) {
            return false;
        }
        i = m.next as usize;
        j = n.next as usize;
        left -= 1;
    }
    j < 1
}

// Before which right edge piece record `at` has no free position, where the piece before it, `last`, has none before `lower`: that one for
// a copy, else 0.
pub fn start_of(sheet: &[u8], v: usize, last: usize, at: usize, lower: u32) -> u32
    requires fact_1 { PieceAt sheet.now v last }
    requires fact_2 { PieceAt sheet.now v at }
    ensures { StartsAt sheet.now last at lower result }
{
    let p = Reader::start(sheet, v + last).present();
    let q = Reader::start(sheet, v + at).present();
    if p.second == q.second && same_vertices(sheet, v, p.first, q.first) {
        lower
    } else {
        0
    }
}
