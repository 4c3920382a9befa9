// The first bytes of a sheet, and all of it.
#![tactic(auto)]

ghost use Rattle.std.specs.Prelude.{◌≡◌, ◌+◌, ◌*◌, ◌≤◌, length};
ghost use Rattle.std.proofs.lemmas.List.Edits.{sets};
ghost use Rattle.defs.specs.Meaning.Sheet.{mark};
ghost use Rattle.defs.specs.Computing.Sheets.{sheet_bytes, list_pieces};
ghost use Rattle.sheetbytes.specs.Sheets.{SheetFits, front_bytes};

// The first four bytes of a sheet.
fn put_mark(out: &mut [u8])
    requires { 16 ≤ length out.old }
    ensures { out.new ≡ sets out.old 0 mark }
{
    out[..4].copy_from_slice(&fields::MARK);
}

// The first 16 bytes of a sheet.
fn put_front(w: u16, r: u16, n: u16, first: u16, v: u16, p: u16, out: &mut [u8])
    requires { 16 ≤ length out.old }
    ensures { out.new ≡ sets out.old 0 (front_bytes w r n first v p) }
{
    put_mark(out);
    fields::set_number(out, fields::WIDTH, w);
    fields::set_number(out, fields::RESOLUTION, r);
    fields::set_number(out, fields::COLUMNS, n);
    fields::set_number(out, fields::FIRST_PIECE, first);
    fields::set_number(out, fields::VERTICES, v);
    fields::set_number(out, fields::PIECES, p);
}

// The sheet of a list that passes and has v vertices. Every byte past it is kept.
pub fn put_sheet(w: u16, r: u16, n: u16, list: &[u16], v: usize, out: &mut [u8])
    requires { SheetFits list.now v out.old }
    ensures { out.new ≡ sets out.old 0 (sheet_bytes w r n (list_pieces list.now)) }
{
    let p = list[0];
    put_front(w, r, n, p.min(1), v as u16, p, out);
    recordbytes::put_vertices(list, p as usize, out);
    recordbytes::put_pieces(
        list,
        p as usize,
        out,
        fields::FRONT_BYTES + fields::RECORD_BYTES * v,
    );
}
