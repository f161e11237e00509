// 2Q: list 1 is A1in, list 2 Am, list 3 A1out (ghosts); first is Kin, second is Kout.
#![tactic(auto)]

ghost use Rattle.std.specs.Prelude.{◌<◌};
ghost use Rattle.meaning.specs.TwoQ.{trimmed, make_room, two_q};
ghost use Rattle.invariants.specs.Places.{Ready, Turns};
ghost use Rattle.invariants.specs.Assumed.{TwoQ};
ghost use Rattle.theorems.specs.Short.{short_room};
ghost use Rattle.lists.specs.Asked.{OnList, Admits};
ghost use Rattle.rooms.specs.Rooms.{Serves, Frees, asking, filling, entering, returning, Lined, Then};

use meaning::Answer;
use rooms::{
    Freed, MakesRoom, as_it_is, enter_after, full, hit_front, put_out_back, remove_back,
    return_after,
};
use settings::{FIRST, LIST, SECOND, SLOT};

// If A1out is over Kout its back is removed.
fn trim(words: &mut [u32])
    requires { Ready words.old Lined }
    ensures { Turns words.old words.new Lined trimmed }
{
    let kout = lists::word(words, SECOND);
    let n = lists::size(words, 3);
    if n <= kout {
        return;
    }
    remove_back(words, 3);
}

// Room for a page of A1out, which comes to the front of Am; A1out is not over Kout then.
#[derive(Clone, Copy)]
struct GhostRoom;

impl MakesRoom for GhostRoom {
    ghost asks = { λ _. TwoQ };

    ghost makes = { λ _. short_room };

    // Nothing if fewer than C are held; else if A1in is over Kin, its back goes to the front of A1out; else the back of Am is removed.
    fn make_room(self, words: &mut [u32]) -> Freed {
        if !full(words) {
            return as_it_is(words);
        }
        let kin = lists::word(words, FIRST);
        let n = lists::size(words, 1);
        if kin < n {
            return put_out_back(words, 1, Some(3));
        }
        put_out_back(words, 2, None)
    }
}

// Room for a page on none of the lists.
#[derive(Clone, Copy)]
struct NewRoom;

impl MakesRoom for NewRoom {
    ghost asks = { λ _. TwoQ };

    ghost makes = { λ _. make_room };

    // Room as `GhostRoom` makes it, and A1out is trimmed.
    fn make_room(self, words: &mut [u32]) -> Freed {
        let f = GhostRoom.make_room(words);
        trim(words);
        f
    }
}

// In Am: to its front. In A1in: a hit, nothing moves. In A1out: make room, enter at the front of Am. Else: make room, enter at the front of A1in.
pub fn two_q_step(words: &mut [u32], page: u32) -> Answer
    requires ready { Ready words.old TwoQ }
    requires page_bound { page < 4294967295 }
    ensures { Serves words.old words.new TwoQ (asking two_q page) result }
{
    let Some(found) = lists::find(words, page) else {
        return enter_after(NewRoom, words, page);
    };
    let j = lists::cell(words, found.entry, LIST);
    match j {
        2 => hit_front(words, found.entry, 2),
        3 => return_after(GhostRoom, words, found.entry),
        _ => {
            let slot = lists::cell(words, found.entry, SLOT);
            Answer::Hit { slot, cleared: 0 }
        }
    }
}
