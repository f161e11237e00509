// CLOCK: its pages are on list 1 by their words, in no order; each entry's slot is its own number; word 6 is the hand.
#![tactic(auto)]

ghost use Rattle.std.specs.Prelude.{◌<◌};
ghost use Rattle.meaning.specs.Clock.{advance, clock_load, clock};
ghost use Rattle.invariants.specs.Places.{Ready, Turns, Says};
ghost use Rattle.invariants.specs.Assumed.{Clock};
ghost use Rattle.theorems.specs.Sweep.{turned};
ghost use Rattle.lists.specs.Asked.{Admits};
ghost use Rattle.lists.specs.Told.{Gives};
ghost use Rattle.rooms.specs.Rooms.{Serves, asking, filling, given, Then, Missing};
ghost use Rattle.clock.specs.Inner.{at_mark, Sweeps, Handed, AtHand, hand_out, Seats, swapping, sweeping, ClockFull};

use meaning::Answer;
use rooms::{Freed, answer, as_it_is, full, put_out};
use settings::{CAPACITY, MARK, SLOT, WORD6};

// Advances the hand: C-1 goes to 0.
fn advance(words: &mut [u32])
    requires { Ready words.old Handed }
    ensures { Turns words.old words.new Handed advance }
{
    let c = lists::word(words, CAPACITY);
    let h = lists::word(words, WORD6) + 1;
    if h == c {
        lists::set_word6(words, 0);
        return;
    }
    lists::set_word6(words, h);
}

// Whether the entry at the hand is marked.
fn marked(words: &[u32]) -> bool
    requires { Ready words.now Clock }
    ensures { Says words.now (Gives at_mark result) }
{
    let h = lists::word(words, WORD6);
    let v = lists::cell(words, h, MARK);
    v != 0
}

// Clears the mark at the hand, and advances the hand.
fn turn(words: &mut [u32])
    requires { Ready words.old Clock }
    ensures { Turns words.old words.new Clock turned }
{
    let h = lists::word(words, WORD6);
    lists::set_mark(words, h, 0);
    advance(words);
}

// While the slot at the hand is marked, clears the mark and advances the hand; answers how many, at most C.
fn sweep(words: &mut [u32]) -> u32
    requires { Ready words.old Clock }
    ensures { Sweeps words.old words.new result }
{
    let c = lists::word(words, CAPACITY);
    for n in 0..c {
        if !marked(words) {
            return n;
        }
        turn(words);
    }
    c
}

// Seats a new page in the slot that is free, and advances the hand.
fn swap_in(words: &mut [u32], page: u32, cleared: u32, f: Freed) -> Answer
    requires { Ready words.old (Seats page) }
    ensures { Serves words.old words.new (Seats page) (given f (swapping page cleared)) result }
{
    lists::enter_seat(words, page, f.slot);
    advance(words);
    answer(f, cleared)
}

// Puts out the page at the hand, seats the new one, and advances the hand.
fn swap_at_hand(words: &mut [u32], page: u32, cleared: u32) -> Answer
    requires { Ready words.old (Then AtHand hand_out (Seats page)) }
    ensures { Serves words.old words.new (Then AtHand hand_out (Seats page)) (filling hand_out (swapping page cleared)) result }
{
    let h = lists::word(words, WORD6);
    let f = put_out(words, h, None);
    swap_in(words, page, cleared, f)
}

// Full: sweeps, and swaps at the hand.
fn clock_full(words: &mut [u32], page: u32) -> Answer
    requires { Ready words.old (ClockFull page) }
    ensures { Serves words.old words.new (ClockFull page) (sweeping page) result }
{
    let n = sweep(words);
    swap_at_hand(words, page, n)
}

// Free slot: loads there, mark 0; the hand stays.
fn clock_load(words: &mut [u32], page: u32) -> Answer
    requires ready { Ready words.old (Admits page) }
    requires page_bound { page < 4294967295 }
    ensures { Serves words.old words.new (Admits page) (asking clock_load page) result }
{
    let f = as_it_is(words);
    lists::enter_seat(words, page, f.slot);
    answer(f, 0)
}

// A page that is not held.
fn clock_miss(words: &mut [u32], page: u32) -> Answer
    requires { Ready words.old (Missing Clock page) }
    ensures { Serves words.old words.new (Missing Clock page) (asking clock page) result }
{
    if full(words) {
        return clock_full(words, page);
    }
    clock_load(words, page)
}

// Held: mark becomes 1, the hand stays. Free slot: load there. Full: sweep, and swap.
pub fn clock_step(words: &mut [u32], page: u32) -> Answer
    requires ready { Ready words.old Clock }
    requires page_bound { page < 4294967295 }
    ensures { Serves words.old words.new Clock (asking clock page) result }
{
    let Some(found) = lists::find(words, page) else {
        return clock_miss(words, page);
    };
    let slot = lists::cell(words, found.entry, SLOT);
    lists::set_mark(words, found.entry, 1);
    Answer::Hit { slot, cleared: 0 }
}
