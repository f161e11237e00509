// ARC: list 1 is T1, list 2 T2, list 3 B1, list 4 B2 (3 and 4 ghosts); word 6 is the target p.
#![tactic(auto)]

ghost use Rattle.std.specs.Prelude.{◌≡◌, ◌<◌, ◌≤◌};
ghost use Rattle.meaning.specs.Arc.{step_of, arc_full_row, arc_under, arc};
ghost use Rattle.invariants.specs.Places.{Ready, Turns, Says, Any};
ghost use Rattle.invariants.specs.Assumed.{Arc};
ghost use Rattle.lists.specs.Told.{Gives};
ghost use Rattle.rooms.specs.Rooms.{Serves, asking, Missing};
ghost use Rattle.arc.specs.Inner.{list_of, is_b2, moved, arc_in, replacing, from_first, Replaces, NotEmpty, Ghost, Row, Under, shortened};

use meaning::Answer;
use rooms::{
    Freed, MakesRoom, as_it_is, enter_after, full, hit_front, put_out_back, remove_back,
    return_after,
};
use settings::{CAPACITY, LIST, UNIT, WORD6};

// The ghost list that has the page asked for.
#[derive(Clone, Copy)]
enum Ghosts {
    B1,
    B2,
}

impl Ghosts {
    fn is_b2(self) -> bool
        ensures { result ≡ is_b2 self }
    {
        match self {
            Ghosts::B1 => false,
            Ghosts::B2 => true,
        }
    }
}

// How far p moves: 1 slot if the page's ghost list is at least the other, else other/mine rounded down.
fn step_of(mine: u32, other: u32) -> u32
    requires { (1 ≤ mine) × (other ≤ 1024) }
    ensures { (result ≡ step_of mine other) × (result ≤ 1024) }
{
    if other <= mine {
        return UNIT;
    }
    UNIT * other / mine
}

// Where p goes: in B1 to the smaller of C and p + d, in B2 to p - d, but not below 0.
fn move_target(words: &mut [u32], ghosts: Ghosts)
    requires { Ready words.old (NotEmpty (list_of ghosts)) }
    ensures { Turns words.old words.new (NotEmpty (list_of ghosts)) (moved ghosts) }
{
    let c = lists::word(words, CAPACITY);
    let p = lists::word(words, WORD6);
    let b1 = lists::size(words, 3);
    let b2 = lists::size(words, 4);
    let q = match ghosts {
        Ghosts::B1 => (UNIT * c).min(p + step_of(b1, b2)),
        Ghosts::B2 => p.saturating_sub(step_of(b2, b1)),
    };
    lists::set_word6(words, q);
}

// Replace, with the new p, and whether the page asked for is in B2: a bool, no plainer as an Option of ghosts, since only B2 matters.
#[derive(Clone, Copy)]
struct Replace {
    in_b2: bool,
}

impl Replace {
    // Whether T1 isn't empty and (T1 is over p, or the page asked for is in B2 and T1 = p).
    fn from_t1(self, words: &[u32]) -> bool
        requires { Ready words.now Any }
        ensures { Says words.now (Gives (from_first self.in_b2) result) }
    {
        let p = lists::word(words, WORD6);
        let t1 = lists::size(words, 1);
        if t1 == 0 {
            return false;
        }
        if p < UNIT * t1 {
            return true;
        }
        self.in_b2 && UNIT * t1 == p
    }
}

impl MakesRoom for Replace {
    ghost asks = { λ r. Replaces r.in_b2 };

    ghost makes = { λ r. replacing r.in_b2 };

    // The back of T1 is put out to the front of B1; else the back of T2 to the front of B2.
    fn make_room(self, words: &mut [u32]) -> Freed {
        if self.from_t1(words) {
            return put_out_back(words, 1, Some(3));
        }
        put_out_back(words, 2, Some(4))
    }
}

// A page of those ghosts, whose entry is e: p moves. Replace; then to the front of T2.
fn arc_ghost(words: &mut [u32], e: u32, ghosts: Ghosts) -> Answer
    requires { Ready words.old (Ghost (list_of ghosts) e) }
    ensures { Serves words.old words.new (Ghost (list_of ghosts) e) (asking (arc_in ghosts) e) result }
{
    move_target(words, ghosts);
    let in_b2 = ghosts.is_b2();
    return_after(Replace { in_b2 }, words, e)
}

// If all four total 2C, removes the back of B2.
fn shorten(words: &mut [u32])
    requires { Ready words.old Under }
    ensures { Turns words.old words.new Under shortened }
{
    let c = lists::word(words, CAPACITY);
    let t = lists::size(words, 1) + lists::size(words, 2);
    let b = lists::size(words, 3) + lists::size(words, 4);
    if t + b != 2 * c {
        return;
    }
    remove_back(words, 4);
}

// Room for a new page where T1+B1 = C.
#[derive(Clone, Copy)]
struct RowRoom;

impl MakesRoom for RowRoom {
    ghost asks = { λ _. Row };

    ghost makes = { λ _. arc_full_row };

    // If T1 is under C, removes the back of B1 and replaces; else puts out and removes the back of T1, with no ghost.
    fn make_room(self, words: &mut [u32]) -> Freed {
        let t1 = lists::size(words, 1);
        let c = lists::word(words, CAPACITY);
        if t1 < c {
            remove_back(words, 3);
            return Replace { in_b2: false }.make_room(words);
        }
        put_out_back(words, 1, None)
    }
}

// Room for a new page where T1+B1 is under C.
#[derive(Clone, Copy)]
struct UnderRoom;

impl MakesRoom for UnderRoom {
    ghost asks = { λ _. Under };

    ghost makes = { λ _. arc_under };

    // If all four total 2C, removes the back of B2; if C are held, replaces.
    fn make_room(self, words: &mut [u32]) -> Freed {
        let swaps = full(words);
        shorten(words);
        if swaps {
            return Replace { in_b2: false }.make_room(words);
        }
        as_it_is(words)
    }
}

// A page on none of the lists.
fn arc_new(words: &mut [u32], page: u32) -> Answer
    requires { Ready words.old (Missing Arc page) }
    ensures { Serves words.old words.new (Missing Arc page) (asking arc page) result }
{
    let c = lists::word(words, CAPACITY);
    let n = lists::size(words, 1) + lists::size(words, 3);
    if n == c {
        return enter_after(RowRoom, words, page);
    }
    enter_after(UnderRoom, words, page)
}

// In T1 or T2: a hit, to the front of T2. In B1, in B2, or in none: as above.
pub fn arc_step(words: &mut [u32], page: u32) -> Answer
    requires ready { Ready words.old Arc }
    requires page_bound { page < 4294967295 }
    ensures { Serves words.old words.new Arc (asking arc page) result }
{
    let Some(found) = lists::find(words, page) else {
        return arc_new(words, page);
    };
    // The list is a number, as the entry's word has it; in 2Q and segmented LRU alike.
    let j = lists::cell(words, found.entry, LIST);
    match j {
        3 => arc_ghost(words, found.entry, Ghosts::B1),
        4 => arc_ghost(words, found.entry, Ghosts::B2),
        _ => hit_front(words, found.entry, 2),
    }
}
