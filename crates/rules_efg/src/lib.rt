// Rules e, f and g: pages, slots and chains.
#![tactic(auto)]

ghost use Rattle.std.specs.Prelude.{◌≡◌, true, ◌^◌, ◌<◌};
ghost use Rattle.meaning.specs.Mem.{E, bits_in};
ghost use Rattle.meaning.specs.Rules.{page_new, rule_e, slot_right, rule_f, bucket_in, chain_right, chained, rule_g};

use cells::{Walk, word};
use readers::Entries;
use settings::{BITS, CHAIN, NONE, PAGE, SLOT, buckets_of};

// Rule e for entry i: where it is used, no used entry before it has its page.
#[tactic(auto, unfolding(meaning::specs::Rules::page_new))]
fn page_new(d: &Entries, i: u32) -> bool
    requires { i < E d.now.words.now }
    ensures { result ≡ page_new d.now.words.now i }
{
    let page = d.cell(i, PAGE);
    !d.is_used(i) || (0..i).all(|h| !d.is_used(h) || d.cell(h, PAGE) != page)
}

// Rule f for entry i, where so many pages are held.
#[tactic(auto, unfolding(meaning::specs::Rules::slot_right))]
fn slot_right(d: &Entries, held: u32, i: u32) -> bool
    requires { i < E d.now.words.now }
    ensures { result ≡ slot_right d.now.words.now held i }
{
    let slot = d.cell(i, SLOT);
    if d.holds(i) {
        return slot < held && (0..i).all(|h| !d.holds(h) || d.cell(h, SLOT) != slot);
    }
    !d.is_used(i) || slot == NONE
}

// Rule g for bucket b: its chain visits only used entries of that bucket, each once, then NONE. No `Walk`, for the reason that rule d has none.
fn chain_right(d: &Entries, b: usize) -> bool
    requires { b < 2 ^ bits_in d.now.words.now }
    ensures { result ≡ chain_right d.now.words.now b }
{
    let n = d.len();
    let mut e = d.first_of(b);
    for _ in 0..=n {
        if e == NONE {
            return true;
        }
        if n <= e || !d.of_bucket(b, e) {
            return false;
        }
        e = d.cell(e, CHAIN);
    }
    false
}

// Rule g for entry i: where it is used, its bucket's chain visits it.
#[tactic(auto, unfolding(meaning::specs::Rules::chained))]
fn chained(d: &Entries, i: u32) -> bool
    requires entry { i < E d.now.words.now }
    requires right { chain_right d.now.words.now (bucket_in d.now.words.now i) ≡ true }
    ensures { result ≡ chained d.now.words.now i }
{
    if !d.is_used(i) {
        return true;
    }
    Walk {
        words: d.words,
        link: CHAIN,
        next: d.first_of(d.bucket_in(i)),
        left: d.len(),
    }
    .any(|e| e == i)
}

// Rule e: no page stands in two used entries.
pub fn rule_e(d: &Entries) -> bool
    ensures { result ≡ rule_e d.now.words.now }
{
    (0..d.len()).all(|i| page_new(d, i))
}

// Rule f: with n held pages, their slots are 0 to n-1, each once; a ghost's slot is NONE.
pub fn rule_f(d: &Entries) -> bool
    ensures { result ≡ rule_f d.now.words.now }
{
    let held = d.count_on(1) + d.count_on(2);
    (0..d.len()).all(|i| slot_right(d, held, i))
}

// Rule g: each bucket's chain visits exactly the used entries of that bucket, each once, then NONE.
pub fn rule_g(d: &Entries) -> bool
    ensures { result ≡ rule_g d.now.words.now }
{
    let buckets = buckets_of(word(d.words, BITS) as usize);
    (0..buckets).all(|b| chain_right(d, b)) && (0..d.len()).all(|i| chained(d, i))
}
