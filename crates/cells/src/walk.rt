// The entries of a list or of a chain, one after the other.
ghost use Rattle.std.specs.Prelude.{◌<◌};
ghost use Rattle.std.specs.Iterator.{YieldsFirst, item_count};
ghost use Rattle.cells.specs.Trail.{trail, Readable};

use crate::cell;
use settings::NONE;

// The entries from `next` on, each in word `link` of the one before, `left` at most; `next` is NONE at the end, as the word has it.
#[derive(Drop)]
pub struct Walk<'a> {
    pub words: &'a [u32],
    pub link: usize,
    pub next: u32,
    pub left: u32,
    ghost column: { link < 8 },
    ghost readable: { Readable words.now (trail words.now link left next) },
}

impl Iterator for Walk<'_> {
    type Item = u32;

    ghost next_gives = { YieldsFirst (λ s. trail s.words.now s.link s.left s.next) };

    ghost remaining = { item_count (λ s. trail s.words.now s.link s.left s.next) };

    // The entry that the walk has come to, which it leaves for the one behind it; None at the end.
    fn next(&mut self) -> Option<u32> {
        if self.left == 0 || self.next == NONE {
            return None;
        }
        let entry = self.next;
        self.next = cell(self.words, entry, self.link);
        self.left -= 1;
        Some(entry)
    }
}
