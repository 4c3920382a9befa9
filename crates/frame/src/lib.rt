// The strip around the pieces of a picture: board, scale, lengths, and what is said below it. Heights are written as negative y, since
// SVG's y goes down: the strip's lower edge is y = 0. What stands beside the strip is measured in em, so that SVG places it by the size of
// the text.
#![tactic(auto)]

ghost use Rattle.std.specs.Prelude.{◌≡◌, ◌*◌, ◌≤◌};

use defs::{Figures, Refusal, Totals};
use svg::Page;

// At most so many spaces between column lines.
const SPACES: u64 = 20;

// What the picture shows: the board's first columns, a little beyond the used length.
#[derive(Clone, Copy)]
pub struct Scene {
    pub width: u16,
    pub resolution: u16,
    pub columns: u16,
    pub shown: u16,
    // units
    pub used: u32,
    pub placed: u16,
    pub refused: u16,
    // between pieces
    pub gap: u16,
    // hundredths of a unit
    pub font: u32,
}

// The length of n columns.
pub fn length_of(n: u16, r: u16) -> u32 {
    u32::from(n) * u32::from(r)
}

// The columns to show: an eighth more than the used ones, and a quarter of the width.
fn shown_of(f: Figures, used: u32) -> u16 {
    let resolution = f.resolution.max(1);
    let filled = u64::from(used).div_ceil(u64::from(resolution));
    let shown = filled + filled / 8 + u64::from(f.width / 4 / resolution) + 1;
    shown.min(u64::from(f.columns)) as u16
}

// The size of the text, by the width and by the length, whichever gives more: a 33rd or a 100th.
fn font_of(width: u16, long: u32) -> u32 {
    long.max(3 * u32::from(width))
}

impl Scene {
    // What is shown of a job of so many pieces that is laid.
    pub fn of(f: Figures, t: Totals, count: u16, gap: u16) -> Scene {
        let shown = shown_of(f, t.used);
        Scene {
            width: f.width,
            resolution: f.resolution,
            columns: f.columns,
            shown,
            used: t.used,
            placed: t.placed,
            refused: count.saturating_sub(t.placed),
            gap,
            font: font_of(f.width, length_of(shown, f.resolution)),
        }
    }

    // Lengths in hundredths of a unit: 1 em, the size of the text,
    fn em(self) -> u64
        ensures { result ≡ self.font }
    {
        u64::from(self.font)
    }

    // the strip's width,
    fn high(self) -> u64
        ensures { result ≡ 100 * self.width }
    {
        100 * u64::from(self.width)
    }

    // so many columns,
    fn reach(self, columns: u16) -> u64
        ensures { result ≤ 429496729500 }
    {
        100 * u64::from(length_of(columns, self.resolution))
    }

    // the used length,
    fn used_reach(self) -> u64
        ensures { result ≡ 100 * self.used }
    {
        100 * u64::from(self.used)
    }

    // how wide the picture is without its margins: the strip, or what the text needs,
    fn span(self) -> u64
        ensures { result ≤ 1000000000000 }
    {
        self.reach(self.shown).max(26 * self.em())
    }

    // and how thick outlines are where nothing is between them: 0.09 em, at most a 40th of the strip's width, and never 0.
    fn thickest(self) -> u64
        ensures { 1 ≤ result }
    {
        (9 * self.em()).min(250 * u64::from(self.width)) / 100 + 1
    }

    // How thick outlines are: where there is a gap, half of it, so that they leave the other half free, and a third as thick at least.
    fn thickness(self) -> u64 {
        let most = self.thickest();
        if self.gap == 0 {
            most
        } else {
            (50 * u64::from(self.gap)).clamp(most / 3, most)
        }
    }

    // How many refused pieces stand in a row below the picture.
    fn in_row(self) -> u16
        ensures { 1 ≤ result }
    {
        (self.span() / (9 * self.em()).max(1)).clamp(2, 11) as u16
    }

    // The rows below the caption: one for a gap, and those of refused pieces.
    fn rows(self) -> u64
        ensures { result ≤ 65536 }
    {
        u64::from(self.refused.div_ceil(self.in_row())) + u64::from(self.gap != 0)
    }

    // The picture's height below the strip: the caption, and 1.4 em for each row.
    fn below(self) -> u64
        ensures { result ≤ 1000000000000000 }
    {
        let rows = self.em() * self.rows();
        7 * self.em() + rows + rows / 5 * 2
    }

    // The columns from one line to the next: each space has room for its millimetres.
    fn step(self) -> u32
        ensures { (1 ≤ result) × (result ≤ 655350) }
    {
        let long = u64::from(length_of(self.shown, self.resolution));
        let spaces = (25 * long / self.em().max(1)).clamp(1, SPACES);
        let enough = u64::from(self.shown).div_ceil(spaces);
        round_up(enough.min(65535) as u32)
    }
}

// The power of ten of which 5 are enough.
fn ten_for(enough: u32) -> u32
    requires { enough ≤ 65535 }
    ensures { (1 ≤ result) × (result ≤ 131070) }
{
    let mut ten: u32 = 1;
    while 5 * ten < enough {
        ten *= 10;
    }
    ten
}

// A round number that is enough: 1, 2 or 5 times a power of ten.
fn round_up(enough: u32) -> u32
    requires { enough ≤ 65535 }
    ensures { (1 ≤ result) × (result ≤ 655350) }
{
    let ten = ten_for(enough);
    if enough <= ten {
        ten
    } else if enough <= 2 * ten {
        2 * ten
    } else {
        5 * ten
    }
}

// The numbers of the head. Around the strip there are 2.5 em beside it and 3 em above it.
fn head_of(s: Scene) -> [u64; 16] {
    let h = s.high();
    let top = h + 3 * s.em();
    let shown = s.reach(s.shown);
    [
        s.em(),
        5 * s.em() / 2,
        top,
        s.span() + 5 * s.em(),
        top + s.below(),
        s.thickness(),
        s.thickness(),
        h,
        shown,
        h,
        h,
        s.used_reach(),
        h,
        u64::from(s.columns.saturating_sub(s.shown)),
        shown,
        h,
    ]
}

// The start of the picture, with the text's size; the ways to draw; the board and its used part; its right edge, broken where the board
// goes on.
fn put_head(page: &mut Page, s: Scene) {
    page.fill(
        b"<svg xmlns='http://www.w3.org/2000/svg' style='background:#fff' font-family='sans-serif' font-size='%l' viewBox='-%l -%l %l %l'>
<style>
.board{fill:#f4ead8;stroke:#8a7550;stroke-width:.08em}
.used{fill:#fffdf7}
.column{stroke:#d8ccb4;stroke-width:.05em}
.end{stroke:#b3261e;stroke-width:.14em}
.more{stroke:#fff;stroke-width:.2em;stroke-dasharray:.5em}
.piece{fill:#cfe2f3;fill-rule:evenodd;stroke:#1b3a57;stroke-linejoin:round;stroke-width:%l}
.twice{stroke:#b3261e;stroke-width:%l;stroke-dasharray:.3em}
.middle{text-anchor:middle}
.mark{text-anchor:middle;font-size:.8em;fill:#555}
</style>
<rect class='board' y='-%l' width='%l' height='%l'/>
<rect class='used' y='-%l' width='%l' height='%l'/>
%?<path class='more' d='M%l 0V-%l'/>
",
        &head_of(s),
    );
}

// A column line with its millimetres below it: not if they would touch the 0.
fn put_tick(page: &mut Page, s: Scene, column: u16) {
    let x = s.reach(column);
    let is_marked = x == 0 || 2 * s.em() <= x;
    page.fill(
        b"<path class='column' d='M%l 0V-%l'/>
%?<text class='mark' y='1.4em' x='%l'>%m</text>
",
        &[x, s.high(), u64::from(is_marked), x, x / 100],
    );
}

// The start of the picture and the strip without pieces: board and column lines.
pub fn put_ground(page: &mut Page, s: Scene) {
    put_head(page, s);
    for column in (0..=s.shown).step_by(s.step() as usize) {
        put_tick(page, s, column);
    }
}

// The start of what shades the gap around each piece: a line of twice its width, within the strip, for outlines that follow.
pub fn put_shade(page: &mut Page, s: Scene) {
    let h = s.high();
    page.fill(
        b"<clipPath id='strip'><rect y='-%l' width='%l' height='%l'/></clipPath>
<path clip-path='url(#strip)' fill='none' stroke='#f2cf9c' stroke-linejoin='round' stroke-width='%l' d='",
        &[h, s.reach(s.shown), h, 200 * u64::from(s.gap)],
    );
}

// The numbers of the text around the strip.
fn around_of(s: Scene) -> [u64; 15] {
    let x = s.used_reach();
    let h = s.high();
    [
        x,
        h,
        h,
        x,
        s.em().max(x / 2),
        u64::from(s.used),
        h / 2,
        u64::from(s.width),
        u64::from(s.used),
        u64::from(length_of(s.columns, s.resolution)),
        u64::from(s.width),
        u64::from(s.resolution),
        u64::from(s.step()) * u64::from(s.resolution),
        u64::from(s.placed),
        u64::from(s.refused),
    ]
}

// The end of the used part; above the strip its length, not beyond the margin at the left; the strip's width beside it. Below it what
// the strip and the columns measure, and how many pieces are on it.
fn put_text(page: &mut Page, s: Scene) {
    page.fill(
        b"<path class='end' d='M%l 0V-%l'/>
<g transform='translate(0 -%l)'><line class='end' y1='-.7em' y2='-.7em' x2='%l'/><text class='middle' y='-1.2em' x='%l'>%m mm</text></g>
<text class='middle' transform='rotate(-90)' y='-.8em' x='%l'>%m mm</text>
<text y='3.4em'>used %m mm of %m mm, width %m mm</text>
<text y='4.8em'>columns of %m mm, a line every %m mm</text>
<text y='6.2em'>%n placed, %n refused</text>
",
        &around_of(s),
    );
}

// The refused pieces, with the number of the question that got "no", in rows below the caption. A gap has the first row.
fn put_refusals(page: &mut Page, s: Scene, count: u16, entries: &[u16]) {
    let in_row = s.in_row();
    let first_row = u64::from(s.gap != 0);
    let mut place: u16 = 0;
    for i in 0..count {
        let number = marks::word(entries, numbers::ENTRY_WORDS * usize::from(i));
        if number != 0 {
            let row = u64::from(place / in_row) + first_row;
            page.fill(
                b"<text x='%nem' y='%hem'>%n refused %n</text>\n",
                &[
                    9 * u64::from(place % in_row),
                    780 + 140 * row,
                    u64::from(i) + 1,
                    u64::from(number),
                ],
            );
            place += 1;
        }
    }
}

// What stands around the strip, and the end of the picture: what dashes and shades mean, if there are any.
pub fn put_around(page: &mut Page, s: Scene, dashed: bool, count: u16, entries: &[u16]) {
    put_text(page, s);
    page.fill(
        b"%?<text x='12em' y='6.2em'>dashed: drawn twice</text>\n",
        &[u64::from(dashed)],
    );
    let gap = u64::from(s.gap);
    page.fill(
        b"%?<text y='7.80em'>shaded: gap of %m mm</text>\n",
        &[gap, gap],
    );
    put_refusals(page, s, count, entries);
    page.fill(b"</svg>\n", &[]);
}

// The picture of a job that is refused: the sentence that program `lay` prints.
pub fn put_refused(page: &mut Page, r: Refusal) {
    page.fill(
        b"<svg xmlns='http://www.w3.org/2000/svg' style='background:#fff' font-family='sans-serif' font-size='20' viewBox='0 0 240 50'>
<text x='20' y='32'>job refused %n %n</text>
</svg>
",
        &[u64::from(r.number), u64::from(r.ordinal)],
    );
}
