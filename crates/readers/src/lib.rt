// What the rules read of an entry, a list and a bucket.
#![tactic(auto)]

ghost use Rattle.std.specs.Prelude.{◌≡◌, ◌^◌, ◌≤◌, ◌<◌, length, get_or};
ghost use Rattle.meaning.specs.Layout.{bucket_at, cell_at};
ghost use Rattle.meaning.specs.Mem.{E, bits_in, policy_in, capacity_in, first_in, second_in};
ghost use Rattle.meaning.specs.Rules.{used, holds, count, bucket_in, of_bucket};
ghost use Rattle.readers.specs.Sized.{Sized};

use cells::{cell, word};
use meaning::Settings;
use settings::{BITS, CAPACITY, ENTRIES, FIRST, LIST, PAGE, POLICY, SECOND, bucket_of, is_held};

// The settings that a directory's words have: words 0, 1, 4 and 5.
pub fn settings_in(words: &[u32]) -> Settings
    requires { 6 ≤ length words.now }
    ensures policy { result.policy ≡ policy_in words.now }
    ensures capacity { result.capacity ≡ capacity_in words.now }
    ensures first { result.first ≡ first_in words.now }
    ensures second { result.second ≡ second_in words.now }
{
    Settings {
        policy: word(words, POLICY),
        capacity: word(words, CAPACITY),
        first: word(words, FIRST),
        second: word(words, SECOND),
    }
}

// The words of a directory whose entries and buckets are all there.
#[derive(Clone, Copy)]
pub struct Entries<'a> {
    pub words: &'a [u32],
    ghost sized: { Sized words.now },
}

impl Entries<'_> {
    // How many entries there are.
    pub fn len(&self) -> u32
        ensures { result ≡ E self.now.words.now }
    {
        word(self.words, ENTRIES)
    }

    // Word f of entry i.
    pub fn cell(&self, i: u32, f: usize) -> u32
        requires { (i < E self.now.words.now) × (f < 8) }
        ensures { result ≡ get_or self.now.words.now (cell_at i f) 0 }
    {
        cell(self.words, i, f)
    }

    // How many entries are on list j. By a `for`, as in `entries::held`.
    pub fn count_on(&self, j: u32) -> u32
        ensures { (result ≡ count self.now.words.now j) × (result ≤ 1024) }
    {
        let mut k = 0;
        for i in 0..self.len() {
            if self.cell(i, LIST) == j {
                k += 1;
            }
        }
        k
    }

    // Entry i is used.
    pub fn is_used(&self, i: u32) -> bool
        requires { i < E self.now.words.now }
        ensures { result ≡ used self.now.words.now i }
    {
        self.cell(i, LIST) != 0
    }

    // Entry i holds a page.
    pub fn holds(&self, i: u32) -> bool
        requires { i < E self.now.words.now }
        ensures { result ≡ holds self.now.words.now i }
    {
        is_held(self.cell(i, LIST))
    }

    // The bucket of entry i's page.
    pub fn bucket_in(&self, i: u32) -> usize
        requires { i < E self.now.words.now }
        ensures { result ≡ bucket_in self.now.words.now i }
    {
        bucket_of(word(self.words, BITS), self.cell(i, PAGE))
    }

    // The first entry of bucket b.
    pub fn first_of(&self, b: usize) -> u32
        requires { b < 2 ^ bits_in self.now.words.now }
        ensures { result ≡ get_or self.now.words.now (bucket_at (E self.now.words.now) b) 0 }
    {
        word(self.words, 16 + 8 * (self.len() as usize) + b)
    }

    // Entry i is used, and of bucket b.
    pub fn of_bucket(&self, b: usize, i: u32) -> bool
        requires { i < E self.now.words.now }
        ensures { result ≡ of_bucket self.now.words.now b i }
    {
        self.is_used(i) && self.bucket_in(i) == b
    }
}
