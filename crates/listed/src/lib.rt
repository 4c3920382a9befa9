// The outlines of a cut list, one after another.
#![tactic(auto)]

ghost use Rattle.std.specs.Prelude.{◌≤◌, length, IfSome};
ghost use Rattle.std.specs.Iterator.{at_most};

// The outlines that are still to come, and the words that they stand in.
#[derive(Drop)]
pub struct Outlines<'a> {
    left: u16,
    words: &'a [u16],
}

impl<'a> Outlines<'a> {
    pub fn of(list: &'a [u16]) -> Outlines<'a> {
        Outlines {
            left: marks::word(list, 0),
            words: list.get(1..).unwrap_or(&[]),
        }
    }
}

impl<'a> Iterator for Outlines<'a> {
    type Item = &'a [u16];

    ghost next_gives = { λ s r t. IfSome r (λ o. length o.now ≤ 131070) };

    ghost remaining = { λ s. at_most s.left };

    // The next outline, behind its count of vertices and its mask; without vertices where the list ends before.
    fn next(&mut self) -> Option<&'a [u16]> {
        self.left = self.left.checked_sub(1)?;
        let end = 2 + 2 * usize::from(marks::word(self.words, 0));
        let outline = self.words.get(2..end).unwrap_or(&[]);
        self.words = self.words.get(2 + outline.len()..).unwrap_or(&[]);
        Some(outline)
    }
}
