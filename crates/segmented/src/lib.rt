// Segmented LRU: list 1 is probation P, list 2 protected Q; first is the most that Q holds.
#![tactic(auto)]

ghost use Rattle.std.specs.Prelude.{◌<◌};
ghost use Rattle.meaning.specs.Segmented.{spill, segmented};
ghost use Rattle.invariants.specs.Places.{Ready, Turns};
ghost use Rattle.invariants.specs.Assumed.{Segmented};
ghost use Rattle.rooms.specs.Rooms.{Serves, asking, Lined, Fronts};
ghost use Rattle.segmented.specs.Inner.{hit_spill};

use meaning::Answer;
use rooms::{LruRoom, enter_after, hit_front};
use settings::{FIRST, LIST};

// If Q is now over first, its back goes to the front of P. Apart from `trim` of 2Q and `shorten` of ARC: each compares other numbers and does something else with the back.
fn spill(words: &mut [u32])
    requires { Ready words.old Lined }
    ensures { Turns words.old words.new Lined spill }
{
    let first = lists::word(words, FIRST);
    let n = lists::size(words, 2);
    if n <= first {
        return;
    }
    let e = lists::back(words, 2);
    lists::to_front(words, e, 1);
}

// Answers a hit in P: to the front of Q, and Q spills.
fn hit_spill(words: &mut [u32], e: u32) -> Answer
    requires { Ready words.old (Fronts e 2) }
    ensures { Serves words.old words.new (Fronts e 2) (hit_spill e) result }
{
    let a = hit_front(words, e, 2);
    spill(words);
    a
}

// In Q: to the front of Q. In P: to the front of Q, and spill. Else make room as LRU does; the page enters at the front of P.
pub fn segmented_step(words: &mut [u32], page: u32) -> Answer
    requires ready { Ready words.old Segmented }
    requires page_bound { page < 4294967295 }
    ensures { Serves words.old words.new Segmented (asking segmented page) result }
{
    let Some(found) = lists::find(words, page) else {
        return enter_after(LruRoom, words, page);
    };
    let j = lists::cell(words, found.entry, LIST);
    if j == 2 {
        return hit_front(words, found.entry, 2);
    }
    hit_spill(words, found.entry)
}
