// Single words of a directory, read and written: the one reader that the audit and the lists share, and the only stores of a request.
// A directory is an arena of word numbers, and no map or Box: document 01 fixes each word, the memory is lent by the caller, and there is no heap.
// That entry i, list j or page p is one is asked beside each number, and no type holds it: callers may give any u32 for which it holds, and whether i is an entry depends on the words lent.
// Words become places by `as usize`, here and above, since `usize` has no `From<u32>`; each such cast is proved to fit.
#![tactic(auto)]

ghost use Rattle.std.specs.Prelude.{◌≡◌, ◌+◌, ◌*◌, ◌<◌, ◌≤◌, length, get_or, set};
ghost use Rattle.meaning.specs.Layout.{cell_at, head_at, tail_at};
ghost use Rattle.meaning.specs.Mem.{with_slot, with_mark, with_word6};
ghost use Rattle.invariants.specs.Places.{Ready, Turns, Any, link_at};
ghost use Rattle.cells.specs.Asked.{Within};

use settings::{MARK, NONE, SLOT, WORD6};

mod walk;

pub use walk::Walk;

// The word at a.
pub fn word(words: &[u32], a: usize) -> u32
    requires { a < length words.now }
    ensures { result ≡ get_or words.now a 0 }
{
    words[a]
}

// Word f of entry i.
pub fn cell(words: &[u32], i: u32, f: usize) -> u32
    requires { (f < 8) × (16 + 8 * i + 8 ≤ length words.now) }
    ensures { result ≡ get_or words.now (cell_at i f) 0 }
{
    words[16 + 8 * (i as usize) + f]
}

// Writes the word at a.
pub fn put(words: &mut [u32], a: usize, v: u32)
    requires { a < length words.old }
    ensures { words.new ≡ set words.old a v }
{
    words[a] = v;
}

// Writes word f of entry i. Runs of it and of `put` stand written out: each line names its word, and a loop over pairs of a column and a value says no more.
pub fn put_cell(words: &mut [u32], i: u32, f: usize, v: u32)
    requires { (f < 8) × (16 + 8 * i + 8 ≤ length words.old) }
    ensures { words.new ≡ set words.old (cell_at i f) v }
{
    put(words, 16 + 8 * (i as usize) + f, v);
}

// Where the head of list j stands.
pub fn head_at(j: u32) -> usize
    ensures { result ≡ head_at j }
{
    5 + 2 * (j as usize)
}

// Where the tail of list j stands: behind its head.
pub fn tail_at(j: u32) -> usize
    ensures { result ≡ tail_at j }
{
    head_at(j) + 1
}

// Where the link that leads on from p stands: in word f of p, or where p is NONE, as the words have it, at a.
pub fn link_at(a: usize, f: usize, p: u32) -> usize
    requires { f < 8 }
    ensures { result ≡ link_at a f p }
{
    if p == NONE {
        return a;
    }
    16 + 8 * (p as usize) + f
}

// Gives entry e the slot s. Apart from `set_mark`, since each is one store that its own definition of `meaning` promises: one function over the column would take that definition as well.
pub fn set_slot(words: &mut [u32], e: u32, s: u32)
    requires { Ready words.old (Within e) }
    ensures { Turns words.old words.new (Within e) (with_slot e s) }
{
    put_cell(words, e, SLOT, s);
}

// Gives entry e the mark v.
pub fn set_mark(words: &mut [u32], e: u32, v: u32)
    requires { Ready words.old (Within e) }
    ensures { Turns words.old words.new (Within e) (with_mark e v) }
{
    put_cell(words, e, MARK, v);
}

// Makes word 6, the target or the hand, v.
pub fn set_word6(words: &mut [u32], v: u32)
    requires { Ready words.old Any }
    ensures { Turns words.old words.new Any (with_word6 v) }
{
    put(words, WORD6, v);
}
