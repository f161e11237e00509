// LRU, on list 1.
// The five policies begin alike, with one let-else on what `find` gives: a trait over that would be longer than the line it saves.
#![tactic(auto)]

ghost use Rattle.std.specs.Prelude.{◌<◌};
ghost use Rattle.meaning.specs.Lru.{lru};
ghost use Rattle.invariants.specs.Places.{Ready};
ghost use Rattle.invariants.specs.Assumed.{Lru};
ghost use Rattle.rooms.specs.Rooms.{Serves, asking};

use meaning::Answer;
use rooms::{LruRoom, enter_after, hit_front};

// Held: to the front. Else make room; the page enters at the front.
pub fn lru_step(words: &mut [u32], page: u32) -> Answer
    requires ready { Ready words.old Lru }
    requires page_bound { page < 4294967295 }
    ensures { Serves words.old words.new Lru (asking lru page) result }
{
    let Some(found) = lists::find(words, page) else {
        return enter_after(LruRoom, words, page);
    };
    hit_front(words, found.entry, 1)
}
