// Entries that are filled and made free, and what is read off all of them.
#![tactic(auto)]

ghost use Rattle.std.specs.Prelude.{◌≡◌, ◌+◌, ◌*◌, ◌<◌, ◌≤◌, length};
ghost use Rattle.meaning.specs.Mem.{blanked, seat, filled, enter, enter_seat, clear, lowest, held, taken, free_slot};
ghost use Rattle.invariants.specs.Places.{Ready, Turns, Says, Any};
ghost use Rattle.cells.specs.Asked.{Within};
ghost use Rattle.cells.specs.Told.{Gives, GivesOf};
ghost use Rattle.links.specs.Asked.{OffList};
ghost use Rattle.entries.specs.Asked.{Fresh, Admits, Placed, Kept};
ghost use Rattle.entries.specs.Written.{sits_at};

use cells::{cell, put_cell, set_mark, set_slot, word};
use index::{find, hang, unhang};
use links::{push_front, unlink};
use settings::{CAPACITY, ENTRIES, LIST, NONE, PAGE, SLOT, is_held};

// The lowest free entry, or the number of entries: a number and no Option, which `enter` would only unwrap.
fn lowest_free(words: &[u32]) -> u32
    requires { Ready words.now Any }
    ensures { Says words.now (Gives lowest result) }
{
    let n = word(words, ENTRIES);
    (0..n).find(|e| cell(words, *e, LIST) == 0).unwrap_or(n)
}

// Puts entry e, which is on no list, on list j by its word alone.
fn seat(words: &mut [u32], e: u32, j: u32)
    requires { Ready words.old (OffList e) }
    ensures { Turns words.old words.new (OffList e) (seat e j) }
{
    put_cell(words, e, LIST, j);
}

// Gives entry e, which is free, a page and a slot, at the front of the page's chain.
fn occupy(words: &mut [u32], e: u32, page: u32, s: u32)
    requires ready { Ready words.old (Fresh e page) }
    requires page_bound { page < 4294967295 }
    ensures { Turns words.old words.new (Fresh e page) (filled e page s) }
{
    hang(words, e, page);
    set_slot(words, e, s);
}

// A new page takes the lowest free entry, the front of its chain and the front of list j.
pub fn enter(words: &mut [u32], page: u32, j: u32, s: u32)
    requires ready { Ready words.old (Admits page) }
    requires page_bound { (page < 4294967295) × (1 ≤ j) × (j ≤ 4) }
    ensures { Turns words.old words.new (Admits page) (enter page j s) }
{
    let e = lowest_free(words);
    occupy(words, e, page, s);
    push_front(words, e, j);
}

// A new page of CLOCK takes the lowest free entry and the front of its chain, on list 1 by its word alone. Apart from `enter` in its last line, for which a closure would need the clauses of both.
pub fn enter_seat(words: &mut [u32], page: u32, s: u32)
    requires ready { Ready words.old (Admits page) }
    requires page_bound { page < 4294967295 }
    ensures { Turns words.old words.new (Admits page) (enter_seat page s) }
{
    let e = lowest_free(words);
    occupy(words, e, page, s);
    seat(words, e, 1);
}

// Takes the slot and the mark from entry e.
fn blank_cell(words: &mut [u32], e: u32)
    requires { Ready words.old (Within e) }
    ensures { Turns words.old words.new (Within e) (blanked e) }
{
    set_slot(words, e, NONE);
    set_mark(words, e, 0);
}

// Makes entry e, which stands behind a on its chain, free.
fn clear(words: &mut [u32], e: u32, a: u32)
    requires { Ready words.old (Placed e a) }
    ensures { Turns words.old words.new (Placed e a) (clear e) }
{
    unlink(words, e);
    unhang(words, e, a);
    blank_cell(words, e);
}

// Makes entry e free.
pub fn remove(words: &mut [u32], e: u32)
    requires { Ready words.old (Kept e) }
    ensures { Turns words.old words.new (Kept e) (clear e) }
{
    let page = cell(words, e, PAGE);
    if let Some(found) = find(words, page) {
        clear(words, e, found.before);
    }
}

// The number of held pages. By a `for`: most requests that load a page ask for it, and `filter` with `count` takes several times the steps.
pub fn held(words: &[u32]) -> u32
    requires { Ready words.now Any }
    ensures says { Says words.now (Gives held result) }
    ensures upper_bound { result ≤ 1024 }
{
    let n = word(words, ENTRIES);
    let mut k = 0;
    for i in 0..n {
        if is_held(cell(words, i, LIST)) {
            k += 1;
        }
    }
    k
}

// Whether entry i holds a page in slot s.
fn sits(words: &[u32], i: u32, s: u32) -> bool
    requires { 16 + 8 * i + 8 ≤ length words.now }
    ensures { result ≡ sits_at words.now s i }
{
    is_held(cell(words, i, LIST)) && cell(words, i, SLOT) == s
}

// Whether a held page has the slot s.
fn taken(words: &[u32], s: u32) -> bool
    requires { Ready words.now Any }
    ensures { Says words.now (GivesOf taken s result) }
{
    let n = word(words, ENTRIES);
    (0..n).any(|i| sits(words, i, s))
}

// The lowest slot below C that no held page has, or C: a number and no Option, since `free_slot` of `meaning`, which the clause cites, is one.
pub fn lowest_free_slot(words: &[u32]) -> u32
    requires { Ready words.now Any }
    ensures { Says words.now (Gives free_slot result) }
{
    let c = word(words, CAPACITY);
    (0..c).find(|s| !taken(words, *s)).unwrap_or(c)
}
