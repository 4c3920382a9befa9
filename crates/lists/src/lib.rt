// Questions 7 to 11 of a cut list.
#![tactic(auto)]

ghost use Rattle.std.specs.Prelude.{◌≡◌, true, ◌+◌, ◌*◌, ◌≤◌, ◌<◌, length, drop};
ghost use Rattle.defs.specs.Computing.Sheets.{q6_listb, q7_listb};
ghost use Rattle.lists.specs.Asked.{PieceWhole, PieceAsked, Asked};

use defs::{Refusal, refused};

const LEAST_VERTICES: usize = 3;

// Question 7 of the piece at place a of the list: 3 to 64 vertices, and its words complete.
fn complete(list: &[u16], a: usize) -> bool
    requires { a ≤ length list.now }
    ensures { result ≡ q7_listb (drop a list.now) }
{
    if a == list.len() {
        return false;
    }
    let m = list[a] as usize;
    if m < LEAST_VERTICES || numbers::MOST_VERTICES < m {
        return false;
    }
    2 + 2 * m <= list.len() - a
}

// Questions 8 to 11 of the piece at place a of the list, which passes 7: the first that gets "no".
fn ask_whole(list: &[u16], a: usize) -> Result<(), u16>
    requires { PieceWhole list.now a }
    ensures { PieceAsked (drop a list.now) result }
{
    let m = list[a] as usize;
    let mask = list[a + 1];
    let from = a + 2;
    asked::ask_outline(&list[from..from + 2 * m], checks::nine(mask), mask)
}

// Questions 7 to 11 of the piece at place a of the list: the first that gets "no".
fn ask_piece(list: &[u16], a: usize) -> Result<(), u16>
    requires { a ≤ length list.now }
    ensures { PieceAsked (drop a list.now) result }
{
    if !complete(list, a) {
        return Err(7);
    }
    ask_whole(list, a)
}

// Questions 7 to 11, piece by piece: the first that gets "no", with the piece's place in the list; else the number of vertices.
pub fn first_no(list: &[u16]) -> Result<usize, Refusal>
    requires { q6_listb list.now ≡ true }
    ensures { Asked list.now result }
{
    let mut a = 1;
    let mut v = 0;
    for k in 0..list[0] {
        if let Err(number) = ask_piece(list, a) {
            return refused(number, k + 1);
        }
        let m = list[a] as usize;
        a += 2 + 2 * m;
        v += m;
    }
    Ok(v)
}
