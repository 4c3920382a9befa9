// A picture of a job, in SVG, as bytes of a buffer: the strip, and on it each placed piece.
#![tactic(auto)]

use defs::{Figures, Refusal, Totals};
use frame::Scene;
use svg::Page;

// Every picture fits: 200 pieces of 64 vertices of 17 bytes, in an outline and in its gap, 64 stretches of 34 bytes and 232 bytes more
// each, and 8,192 bytes for the rest.
pub const ROOM: usize = 930000;

// The picture of a job that is laid.
fn put_picture(page: &mut Page, s: Scene, list: &[u16], entries: &[u16], work: &mut [u16]) {
    frame::put_ground(page, s);
    shapes::put_gap(page, s, list, entries);
    shapes::put_pieces(page, s, list, entries, work);
    let before = page.len();
    shapes::put_twice(page, s, list, entries);
    let dashed = before < page.len();
    frame::put_around(page, s, dashed, marks::word(list, 0), entries);
}

// The figures of a sheet that is laid, so it is not refused; its cut list is written.
fn read(sheet: &[u8], list: &mut [u16]) -> Figures {
    match reads::read(sheet, list) {
        Ok(f) => f,
        Err(_) => Figures {
            width: 0,
            resolution: 0,
            columns: 0,
        },
    }
}

// The picture of a sheet that is laid: its outlines are read from it anew.
fn draw_laid(
    sheet: &[u8],
    gap: u16,
    t: Totals,
    entries: &[u16],
    work: &mut [u16],
    out: &mut [u8],
) -> usize {
    let mut list = [0u16; numbers::LIST_WORDS];
    let f = read(sheet, &mut list);
    let s = Scene::of(f, t, list[0], gap);
    let mut page = Page::new(out, s.font);
    put_picture(&mut page, s, &list, entries, work);
    page.len()
}

// The picture of a job that is laid or refused, at the start of the output. Answers the number of its bytes, or the output's length if that
// is too short.
pub fn draw_answer(
    sheet: &[u8],
    gap: u16,
    a: Result<Totals, Refusal>,
    entries: &[u16],
    work: &mut [u16],
    out: &mut [u8],
) -> usize {
    match a {
        Ok(t) => draw_laid(sheet, gap, t, entries, work, out),
        Err(r) => {
            let mut page = Page::new(out, 0);
            frame::put_refused(&mut page, r);
            page.len()
        }
    }
}
