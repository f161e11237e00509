// The four lists: heads, tails, and the previous and next of each entry.
#![tactic(auto)]

ghost use Rattle.std.specs.Prelude.{◌≡◌, ◌+◌, ◌*◌, ◌<◌, ◌≤◌, length, get_or};
ghost use Rattle.meaning.specs.Layout.{head_at, tail_at, next_col, previous_col};
ghost use Rattle.meaning.specs.Mem.{off, push, to_front, move_to, size, back};
ghost use Rattle.invariants.specs.Places.{Ready, Turns, Says, Any, link_at};
ghost use Rattle.cells.specs.Told.{GivesOf};
ghost use Rattle.links.specs.Asked.{OnList, OffList};
ghost use Rattle.cells.specs.Steps.{steps};
ghost use Rattle.cells.specs.Trail.{Readable};
ghost use Rattle.links.specs.Told.{Lists, Shorter, Copied};
ghost use Rattle.links.specs.Written.{joined, relinked, led};

use cells::{Walk, cell, head_at, link_at, put, put_cell, set_slot, tail_at, word};
use settings::{ENTRIES, LIST, NEXT, NONE, PAGE, PREVIOUS};

// Joins p and n on list j: what stands behind p is n, and what stands in front of n is p; NONE is the list's end.
fn join(words: &mut [u32], j: u32, p: u32, n: u32)
    requires { (link_at (head_at j) next_col p < length words.old) × (link_at (tail_at j) previous_col n < length words.old) }
    ensures { words.new ≡ joined words.old j p n }
{
    let a = link_at(head_at(j), NEXT, p);
    let b = link_at(tail_at(j), PREVIOUS, n);
    put(words, a, n);
    put(words, b, p);
}

// Writes the list, the previous and the next of entry e.
fn put_links(words: &mut [u32], e: u32, j: u32, p: u32, n: u32)
    requires { 16 + 8 * e + 8 ≤ length words.old }
    ensures { words.new ≡ relinked words.old e j p n }
{
    put_cell(words, e, LIST, j);
    put_cell(words, e, PREVIOUS, p);
    put_cell(words, e, NEXT, n);
}

// Takes entry e off its list.
pub fn unlink(words: &mut [u32], e: u32)
    requires { Ready words.old (OnList e) }
    ensures { Turns words.old words.new (OnList e) (off e) }
{
    let j = cell(words, e, LIST);
    let p = cell(words, e, PREVIOUS);
    let n = cell(words, e, NEXT);
    join(words, j, p, n);
    put_links(words, e, 0, NONE, NONE);
}

// The first entry of list j, or NONE, as the word has it.
fn front(words: &[u32], j: u32) -> u32
    requires { (1 ≤ j) × (j ≤ 4) × (16 ≤ length words.now) }
    ensures { result ≡ get_or words.now (head_at j) 0 }
{
    word(words, head_at(j))
}

// Makes e the head of list j, in front of h.
fn lead(words: &mut [u32], j: u32, h: u32, e: u32)
    requires { (head_at j < length words.old) × (link_at (tail_at j) previous_col h < length words.old) }
    ensures { words.new ≡ led words.old j h e }
{
    let b = link_at(tail_at(j), PREVIOUS, h);
    put(words, b, e);
    put(words, head_at(j), e);
}

// Puts entry e, which is on no list, at the front of list j.
pub fn push_front(words: &mut [u32], e: u32, j: u32)
    requires ready { Ready words.old (OffList e) }
    requires le_j { (1 ≤ j) × (j ≤ 4) }
    ensures { Turns words.old words.new (OffList e) (push e j) }
{
    let h = front(words, j);
    lead(words, j, h, e);
    put_links(words, e, j, NONE, h);
}

// Takes entry e off its list and puts it at the front of list j.
pub fn to_front(words: &mut [u32], e: u32, j: u32)
    requires ready { Ready words.old (OnList e) }
    requires le_j { (1 ≤ j) × (j ≤ 4) }
    ensures { Turns words.old words.new (OnList e) (to_front e j) }
{
    unlink(words, e);
    push_front(words, e, j);
}

// Takes entry e off its list and puts it at the front of list j, with the slot s.
pub fn move_to(words: &mut [u32], e: u32, j: u32, s: u32)
    requires ready { Ready words.old (OnList e) }
    requires le_j { (1 ≤ j) × (j ≤ 4) }
    ensures { Turns words.old words.new (OnList e) (move_to e j s) }
{
    to_front(words, e, j);
    set_slot(words, e, s);
}

// The entries of list j, front first.
fn listed(words: &[u32], j: u32) -> Walk<'_>
    requires ready { Ready words.now Any }
    requires le_j { (1 ≤ j) × (j ≤ 4) }
    ensures lists { Says words.now (Lists j (steps result)) }
    ensures readable { Readable words.now (steps result) }
{
    Walk {
        words,
        link: NEXT,
        next: front(words, j),
        left: word(words, ENTRIES),
    }
}

// The number of entries of list j.
pub fn size(words: &[u32], j: u32) -> u32
    requires ready { Ready words.now Any }
    requires le_j { (1 ≤ j) × (j ≤ 4) }
    ensures says { Says words.now (GivesOf size j result) }
    ensures upper_bound { result ≤ 1024 }
{
    listed(words, j).count() as u32
}

// Writes the pages of list j, front first, and answers how many; words past that stay. They are counted by a second walk, since the clause promises their number and a `for` gives none.
pub fn write_pages(words: &[u32], j: u32, res: &mut [u32]) -> u32
    requires ready { Ready words.now Any }
    requires le_j { (1 ≤ j) × (j ≤ 4) }
    requires fits { Says words.now (Shorter j (length res.old)) }
    ensures counted { Says words.now (GivesOf size j result) }
    ensures copied { Says words.now (Copied j res.old res.new) }
{
    for (k, entry) in listed(words, j).enumerate() {
        res[k] = cell(words, entry, PAGE);
    }
    size(words, j)
}

// The last entry of list j, or NONE: the word itself, since `back` of `meaning`, which the clause cites, is a number.
pub fn back(words: &[u32], j: u32) -> u32
    requires ready { Ready words.now Any }
    requires le_j { (1 ≤ j) × (j ≤ 4) }
    ensures { Says words.now (GivesOf back j result) }
{
    word(words, tail_at(j))
}
