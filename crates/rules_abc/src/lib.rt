// Rules a, b and c: the header, and each entry by itself.
#![tactic(auto)]

ghost use Rattle.std.specs.Prelude.{◌≡◌, ◌<◌};
ghost use Rattle.meaning.specs.Mem.{E};
ghost use Rattle.meaning.specs.Rules.{rule_a, rule_b, is_free, is_taken, entry_right, rule_c};

use cells::word;
use readers::{Entries, settings_in};
use settings::{
    BITS, END, ENTRIES, LAST, LIST, MARK, NONE, PAGE, POLICY, WORD6, accepted, bits_of, entries_of,
    is_list, length_for, mark_limit, word6_fits,
};

// Rule a: the settings are accepted, and entries, bits and length are as derived.
#[tactic(auto, unfolding(meaning::specs::Rules::rule_a, settings::specs::Policies::judged, meaning::specs::Calls::refusal_of))]
pub fn rule_a(words: &[u32]) -> bool
    ensures { result ≡ rule_a words.now }
{
    if words.len() < 16 {
        return false;
    }
    let settings = settings_in(words);
    if accepted(settings).is_err() {
        return false;
    }
    let n = word(words, ENTRIES) as usize;
    n == entries_of(settings)
        && word(words, BITS) as usize == bits_of(n)
        && words.len() == length_for(n)
}

// Rule b: word 6, and the last word of the header.
#[tactic(auto, unfolding(meaning::specs::Rules::rule_b))]
pub fn rule_b(d: &Entries) -> bool
    ensures { result ≡ rule_b d.now.words.now }
{
    word6_fits(settings_in(d.words), word(d.words, WORD6)) && word(d.words, END) == 0
}

// Entry i is free: NONE, 0, NONE, NONE, NONE, NONE, 0, 0. By a `for`, which is unrolled as `all` is not.
fn is_free(d: &Entries, i: u32) -> bool
    requires { i < E d.now.words.now }
    ensures { result ≡ is_free d.now.words.now i }
{
    let free = [NONE, 0, NONE, NONE, NONE, NONE, 0, 0];
    for f in 0..8 {
        if d.cell(i, f) != free[f] {
            return false;
        }
    }
    true
}

// Entry i holds a page or remembers one: page, list, last word and mark are as rule c asks.
#[tactic(auto, unfolding(meaning::specs::Rules::is_taken))]
fn is_taken(d: &Entries, i: u32) -> bool
    requires { i < E d.now.words.now }
    ensures { result ≡ is_taken d.now.words.now i }
{
    let policy = word(d.words, POLICY);
    d.cell(i, PAGE) != NONE
        && is_list(policy, d.cell(i, LIST))
        && d.cell(i, LAST) == 0
        && d.cell(i, MARK) <= mark_limit(policy)
}

// Rule c for entry i.
#[tactic(auto, unfolding(meaning::specs::Rules::entry_right))]
fn entry_right(d: &Entries, i: u32) -> bool
    requires { i < E d.now.words.now }
    ensures { result ≡ entry_right d.now.words.now i }
{
    is_free(d, i) || is_taken(d, i)
}

// Rule c: each entry is free, or taken.
pub fn rule_c(d: &Entries) -> bool
    ensures { result ≡ rule_c d.now.words.now }
{
    (0..d.len()).all(|i| entry_right(d, i))
}
