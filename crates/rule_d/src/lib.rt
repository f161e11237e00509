// Rule d: the lists.
#![tactic(auto)]

ghost use Rattle.std.specs.Prelude.{◌≡◌, ◌≤◌, ◌<◌};
ghost use Rattle.meaning.specs.Mem.{E};
ghost use Rattle.meaning.specs.Rules.{list_right, clock_right, end_none, rule_d};

use cells::{head_at, tail_at, word};
use readers::Entries;
use settings::{LIST, NEXT, NONE, POLICY, PREVIOUS, SLOT, has_order};

// Rule d for list j: a walk by next from its head, each previous on the way, its tail and its count. No `Walk`, which asks that the links may be followed: that is what is judged here.
fn list_right(d: &Entries, j: u32) -> bool
    requires { (1 ≤ j) × (j ≤ 4) }
    ensures { result ≡ list_right d.now.words.now j }
{
    let n = d.len();
    let mut e = word(d.words, head_at(j));
    let mut before = NONE;
    for visited in 0..=n {
        if e == NONE {
            return word(d.words, tail_at(j)) == before && d.count_on(j) == visited;
        }
        if n <= e {
            return false;
        }
        if d.cell(e, LIST) != j {
            return false;
        }
        let lost = d.cell(e, PREVIOUS) != before;
        if lost {
            return false;
        }
        before = e;
        e = d.cell(e, NEXT);
    }
    false
}

// Rule d for entry i of a CLOCK directory.
#[tactic(auto, unfolding(meaning::specs::Rules::clock_right))]
fn clock_right(d: &Entries, i: u32) -> bool
    requires { i < E d.now.words.now }
    ensures { result ≡ clock_right d.now.words.now i }
{
    d.cell(i, PREVIOUS) == NONE
        && d.cell(i, NEXT) == NONE
        && (!d.is_used(i) || d.cell(i, SLOT) == i)
}

// Rule d for the head or tail h of a CLOCK directory, of eight in a row.
#[tactic(auto, unfolding(meaning::specs::Rules::end_none))]
fn end_none(d: &Entries, h: u32) -> bool
    requires { h < 8 }
    ensures { result ≡ end_none d.now.words.now h }
{
    word(d.words, head_at(1) + h as usize) == NONE
}

// Rule d: each list is right; for CLOCK, whose lists have no order, each head, tail and entry.
pub fn rule_d(d: &Entries) -> bool
    ensures { result ≡ rule_d d.now.words.now }
{
    if has_order(word(d.words, POLICY)) {
        return (1..5).all(|j| list_right(d, j));
    }
    (0..8).all(|h| end_none(d, h)) && (0..d.len()).all(|i| clock_right(d, i))
}
