// The records of a sheet, put into its bytes from a cut list.
#![tactic(auto)]

ghost use Rattle.std.specs.Prelude.{◌≡◌, map, ◌+◌, ◌*◌, ◌≤◌, ◌<◌, length, take, drop};
ghost use Rattle.std.proofs.lemmas.List.Edits.{sets};
ghost use Rattle.defs.specs.Meaning.Sheet.{list_piece};
ghost use Rattle.defs.specs.Computing.Sheets.{outline_bytes, vertices_bytes, pieces_bytes, list_tails};
ghost use Rattle.recordbytes.specs.Fits.{OutlineFits, ListFits};

// The vertex records of an outline of `count` vertices at place `from` of the list; the first has number `first`.
fn put_outline(list: &[u16], from: usize, count: usize, first: usize, out: &mut [u8], to: usize)
    requires { OutlineFits list.now from count first out.old to }
    ensures { out.new ≡ sets out.old to (outline_bytes first (take (2 * count) (drop from list.now))) }
{
    for i in 0..count {
        let a = from + 2 * i;
        let t = to + fields::RECORD_BYTES * i;
        onerecord::set_record(
            out,
            t,
            list[a],
            list[a + 1],
            onerecord::link(first + i, count - i),
        );
    }
}

// The vertex records of `count` pieces from place 1 of the list.
pub fn put_vertices(list: &[u16], count: usize, out: &mut [u8])
    requires { ListFits list.now count out.old }
    ensures { out.new ≡ sets out.old 16 (vertices_bytes 1 (map list_piece (list_tails count (drop 1 list.now)))) }
{
    let mut a = 1;
    let mut v = 1;
    let mut t = fields::FRONT_BYTES;
    for i in 0..count {
        let m = list[a] as usize;
        put_outline(list, a + 2, m, v, out, t);
        a += 2 + 2 * m;
        v += m;
        t += fields::RECORD_BYTES * m;
    }
}

// The piece records of `count` pieces, from byte `to`.
pub fn put_pieces(list: &[u16], count: usize, out: &mut [u8], to: usize)
    requires fact_1 { ListFits list.now count out.old }
    requires fact_2 { to + 6 * count ≤ length out.old }
    ensures { out.new ≡ sets out.old to (pieces_bytes 1 1 (map list_piece (list_tails count (drop 1 list.now)))) }
{
    let mut a = 1;
    let mut v = 1;
    for i in 0..count {
        let m = list[a] as usize;
        let t = to + fields::RECORD_BYTES * i;
        onerecord::set_record(
            out,
            t,
            v as u16,
            list[a + 1],
            onerecord::link(i + 1, count - i),
        );
        a += 2 + 2 * m;
        v += m;
    }
}
