// The outline of a path in a file that a line of a text names.
#![tactic(auto)]

ghost use Rattle.std.specs.Prelude.{◌≡◌, ◌+◌, ◌≤◌, length, take, IfOk};

use std::fs;
use std::fs::Files;
use tokens::Scanner;
use tokens::fault::Fault;

// One byte more than the longest path has, so that a longer file is noticed: it has another shape.
const ROOM: usize = 578;

// What is wrong with a path, by the number of its refusal: 19 or 20, since there is room for every outline.
fn fault_of(number: u16) -> Fault {
    match number {
        19 => Fault::Shape,
        _ => Fault::Coordinate,
    }
}

// The outline of a path, as words.
fn read_words(path: &[u8], out: &mut [u16]) -> Result<usize, Fault>
    ensures { IfOk result (λ n. n ≤ 128) }
{
    match readpath::read_path(path, out) {
        Ok(n) => Ok(n as usize),
        Err(r) => Err(fault_of(r.number)),
    }
}

// The outline of a path, from place `to` of the list. Answers the number of its vertices.
fn put_path(path: &[u8], list: &mut [u16], to: usize) -> Result<usize, Fault>
    requires { to + 128 ≤ length list.old }
    ensures { IfOk result (λ n. n ≤ 64) }
{
    let n = read_words(path, &mut list[to..to + numbers::MOST_WORDS])?;
    Ok(n / 2)
}

// The first bytes of the file with this name, and their number: 0 also where it cannot be read.
fn file_bytes<R: Files>(rt: &R, name: &[u8], bytes: &mut [u8]) -> usize
    ensures within { result ≤ length bytes.new }
    ensures prefix { result ≡ length (take result bytes.new) }
{
    let Ok(path) = std::str::from_utf8(name) else {
        return 0;
    };
    match fs::open(rt, path) {
        Ok(mut file) => streams::read_full(&mut file, bytes).unwrap_or(0),
        Err(_) => 0,
    }
}

// The outline of the path in the file that the rest of a line names, from place `to` of the list. Answers the number of its vertices.
// A name may have blanks inside.
pub fn put_outline<R: Files>(
    rt: &R,
    line: &mut Scanner,
    list: &mut [u16],
    to: usize,
) -> Result<usize, Fault>
    requires { to + 128 ≤ length list.old }
    ensures { IfOk result (λ n. n ≤ 64) }
{
    let name = line.remainder();
    if name.is_empty() {
        return Err(Fault::Name);
    }
    let mut bytes = [0u8; ROOM];
    let n = file_bytes(rt, name, &mut bytes);
    if n == 0 {
        return Err(Fault::Unread);
    }
    put_path(&bytes[..n], list, to)
}
