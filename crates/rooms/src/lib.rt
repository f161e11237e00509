// What the policies share: room for a page, and how a page comes in.
// A list is the number, 1 to 4, that stands in the lent words, by which `links` finds its head: an enum or a struct for it would be opened at each use.
// A page is the number that C and traces hand in; entries keep it and `find` compares it as that number, so it is bounded by a clause and has no struct.
#![tactic(auto)]

ghost use Rattle.std.specs.Prelude.{◌≡◌, ◌<◌, ◌≤◌, IfSome};
ghost use Rattle.meaning.specs.Mem.{Mem, full};
ghost use Rattle.meaning.specs.Room.{Room, as_it_is};
ghost use Rattle.meaning.specs.Lru.{lru_room};
ghost use Rattle.meaning.specs.Answers.{reply_of};
ghost use Rattle.invariants.specs.Places.{Ready, Turns, Says, Any};
ghost use Rattle.lists.specs.Asked.{OnList, Kept, Admits};
ghost use Rattle.lists.specs.Told.{Gives};
ghost use Rattle.rooms.specs.Rooms.{Serves, Frees, filling, given, entering, returning, hit_front, loading, leaving, back_leaving, back_gone, HasBack, Evicts, Then};

mod freed;

pub use freed::Freed;
use lists::NONE;
use meaning::Answer;
use settings::{CAPACITY, PAGE, SLOT};

// A way to make room for a page: what it asks of a directory, the room that it makes, and the code.
pub trait MakesRoom {
    ghost asks: { Self → Mem → Type 0 };

    ghost makes: { Self → Mem → Room };

    fn make_room(self, words: &mut [u32]) -> Freed
        requires { Ready words.old (asks self) }
        ensures { Frees words.old words.new (asks self) (makes self) result };
}

// Whether C are held.
pub fn full(words: &[u32]) -> bool
    requires { Ready words.now Any }
    ensures { Says words.now (Gives full result) }
{
    lists::word(words, CAPACITY) <= lists::held(words)
}

// Puts nothing out: a loaded page takes the lowest free slot.
pub fn as_it_is(words: &[u32]) -> Freed
    requires { Ready words.now Any }
    ensures { Frees words.now words.now Any as_it_is result }
{
    let slot = lists::lowest_free_slot(words);
    Freed { slot, out: None }
}

// Puts out entry e: to the front of those ghosts, or removes it where there are none.
pub fn put_out(words: &mut [u32], e: u32, ghosts: Option<u32>) -> Freed
    requires ready { Ready words.old (Kept e) }
    requires on_lists { IfSome ghosts (λ j. (1 ≤ j) × (j ≤ 4)) }
    ensures { Frees words.old words.new (Kept e) (leaving e ghosts) result }
{
    let slot = lists::cell(words, e, SLOT);
    let page = lists::cell(words, e, PAGE);
    match ghosts {
        Some(j) => lists::move_to(words, e, j, NONE),
        None => lists::remove(words, e),
    }
    Freed {
        slot,
        out: Some(page),
    }
}

// Puts out the back of list k, likewise.
pub fn put_out_back(words: &mut [u32], k: u32, ghosts: Option<u32>) -> Freed
    requires ready { Ready words.old (HasBack k) }
    requires le_k { (1 ≤ k) × (k ≤ 4) }
    requires on_lists { IfSome ghosts (λ j. (1 ≤ j) × (j ≤ 4)) }
    ensures { Frees words.old words.new (HasBack k) (back_leaving k ghosts) result }
{
    let e = lists::back(words, k);
    put_out(words, e, ghosts)
}

// Removes the back of list k.
pub fn remove_back(words: &mut [u32], k: u32)
    requires ready { Ready words.old (HasBack k) }
    requires le_k { (1 ≤ k) × (k ≤ 4) }
    ensures { Turns words.old words.new (HasBack k) (back_gone k) }
{
    let e = lists::back(words, k);
    lists::remove(words, e);
}

// Room as LRU and segmented LRU make it.
#[derive(Clone, Copy)]
pub struct LruRoom;

impl MakesRoom for LruRoom {
    ghost asks = { λ _. Evicts 1 };

    ghost makes = { λ _. lru_room };

    // If C are held, the back of list 1 is put out and removed.
    fn make_room(self, words: &mut [u32]) -> Freed {
        if full(words) {
            return put_out_back(words, 1, None);
        }
        as_it_is(words)
    }
}

// Says Loaded where nothing was put out, else Swapped.
pub fn answer(f: Freed, cleared: u32) -> Answer
    ensures { reply_of result ≡ loading f cleared }
{
    let slot = f.slot;
    match f.out {
        None => Answer::Loaded { slot, cleared },
        Some(out) => Answer::Swapped { slot, out, cleared },
    }
}

// Has a new page enter at the front of list j, in the slot that is free. Apart from `enter_after`, since this is promised of any list.
pub fn enters(words: &mut [u32], page: u32, j: u32, f: Freed) -> Answer
    requires ready { Ready words.old (Admits page) }
    requires page_bound { (page < 4294967295) × (1 ≤ j) × (j ≤ 4) }
    ensures { Serves words.old words.new (Admits page) (given f (entering page j)) result }
{
    lists::enter(words, page, j, f.slot);
    answer(f, 0)
}

// Has a ghost, whose entry is e, come to the front of list j, in the slot that is free. Apart from `return_after`, for the same reason.
pub fn returns(words: &mut [u32], e: u32, j: u32, f: Freed) -> Answer
    requires ready { Ready words.old (OnList e) }
    requires le_j { (1 ≤ j) × (j ≤ 4) }
    ensures { Serves words.old words.new (OnList e) (given f (returning e j)) result }
{
    lists::move_to(words, e, j, f.slot);
    answer(f, 0)
}

// Answers a hit on entry e, which goes to the front of list j.
pub fn hit_front(words: &mut [u32], e: u32, j: u32) -> Answer
    requires ready { Ready words.old (OnList e) }
    requires le_j { (1 ≤ j) × (j ≤ 4) }
    ensures { Serves words.old words.new (OnList e) (hit_front e j) result }
{
    let slot = lists::cell(words, e, SLOT);
    lists::to_front(words, e, j);
    Answer::Hit { slot, cleared: 0 }
}

// Makes room; the page enters at the front of list 1.
pub fn enter_after<R: MakesRoom>(room: R, words: &mut [u32], page: u32) -> Answer
    requires ready { Ready words.old (Then (R.asks room) (R.makes room) (Admits page)) }
    requires page_bound { page < 4294967295 }
    ensures { Serves words.old words.new (Then (R.asks room) (R.makes room) (Admits page)) (filling (R.makes room) (entering page 1)) result }
{
    let f = room.make_room(words);
    enters(words, page, 1, f)
}

// Makes room; the page of entry e, a ghost, comes to the front of list 2.
pub fn return_after<R: MakesRoom>(room: R, words: &mut [u32], e: u32) -> Answer
    requires { Ready words.old (Then (R.asks room) (R.makes room) (OnList e)) }
    ensures { Serves words.old words.new (Then (R.asks room) (R.makes room) (OnList e)) (filling (R.makes room) (returning e 2)) result }
{
    let f = room.make_room(words);
    returns(words, e, 2, f)
}
