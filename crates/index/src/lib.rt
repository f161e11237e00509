// The page index: buckets, and the chain of each.
#![tactic(auto)]

ghost use Rattle.std.specs.Prelude.{◌≡◌, ◌<◌, length};
ghost use Rattle.meaning.specs.Mem.{hang, unhang};
ghost use Rattle.invariants.specs.Places.{Ready, Turns, Says, Any};
ghost use Rattle.index.specs.Asked.{Bare, Hung};
ghost use Rattle.cells.specs.Trail.{Readable};
ghost use Rattle.cells.specs.Steps.{steps};
ghost use Rattle.index.specs.Told.{Chains, Answers};
ghost use Rattle.index.specs.Written.{bucket_on};

use cells::{Walk, cell, link_at, put, put_cell, word};
use settings::{BITS, CHAIN, ENTRIES, NONE, PAGE, bucket_of};

// An entry, and the one in front of it on its chain, or NONE, as the words have it: `unhang` writes by it.
#[derive(Clone, Copy, Debug, PartialEq, Eq)]
pub struct Found {
    pub entry: u32,
    pub before: u32,
}

// Where the word of a page's bucket stands.
fn bucket_at(words: &[u32], page: u32) -> usize
    requires { Ready words.now Any }
    ensures { (result ≡ bucket_on words.now page) × (result < length words.now) }
{
    let k = word(words, BITS);
    let n = word(words, ENTRIES);
    let b = bucket_of(k, page);
    16 + 8 * (n as usize) + b
}

// The entries of the chain of a page, front first.
fn chained(words: &[u32], page: u32) -> Walk<'_>
    requires { Ready words.now Any }
    ensures chains { Says words.now (Chains page (steps result)) }
    ensures readable { Readable words.now (steps result) }
{
    let b = bucket_at(words, page);
    Walk {
        words,
        link: CHAIN,
        next: word(words, b),
        left: word(words, ENTRIES),
    }
}

// The entry of a page and the one in front of it on its chain, or that there is none.
pub fn find(words: &[u32], page: u32) -> Option<Found>
    requires { Ready words.now Any }
    ensures { Says words.now (Answers page result) }
{
    let mut before = NONE;
    for entry in chained(words, page) {
        if cell(words, entry, PAGE) == page {
            return Some(Found { entry, before });
        }
        before = entry;
    }
    None
}

// Gives entry e, which has none, a page, and puts it at the front of the page's chain.
pub fn hang(words: &mut [u32], e: u32, page: u32)
    requires ready { Ready words.old (Bare e page) }
    requires page_bound { page < 4294967295 }
    ensures { Turns words.old words.new (Bare e page) (hang e page) }
{
    let b = bucket_at(words, page);
    let h = word(words, b);
    put_cell(words, e, PAGE, page);
    put_cell(words, e, CHAIN, h);
    put(words, b, e);
}

// Takes entry e, which stands behind a, off its chain, and its page from it.
pub fn unhang(words: &mut [u32], e: u32, a: u32)
    requires { Ready words.old (Hung e a) }
    ensures { Turns words.old words.new (Hung e a) (unhang e) }
{
    let page = cell(words, e, PAGE);
    let n = cell(words, e, CHAIN);
    let b = bucket_at(words, page);
    let at = link_at(b, CHAIN, a);
    put(words, at, n);
    put_cell(words, e, PAGE, NONE);
    put_cell(words, e, CHAIN, NONE);
}
