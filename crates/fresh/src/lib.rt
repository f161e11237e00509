// A fresh directory, over whatever was there.
#![tactic(auto)]

ghost use Rattle.std.specs.Prelude.{◌≡◌, ◌≤◌, length};
ghost use Rattle.meaning.specs.Answers.{asked};
ghost use Rattle.fresh.specs.Written.{headed, blank, Wiped, Fits, fresh_words};

use cells::put;
use meaning::Settings;
use settings::{BITS, CAPACITY, END, ENTRIES, FIRST, LIST, MARK, NONE, POLICY, SECOND, WORD6};

// Writes header words 0 to 6.
fn put_settings(words: &mut [u32], settings: Settings, entries: u32, bits: u32)
    requires { 7 ≤ length words.old }
    ensures { words.new ≡ headed words.old (asked settings) entries bits }
{
    put(words, POLICY, settings.policy);
    put(words, CAPACITY, settings.capacity);
    put(words, ENTRIES, entries);
    put(words, BITS, bits);
    put(words, FIRST, settings.first);
    put(words, SECOND, settings.second);
    put(words, WORD6, 0);
}

// What stands at a, from 7 on, in a fresh directory of n entries.
fn blank_word(n: u32, a: usize) -> u32
    ensures { result ≡ blank n a }
{
    if a == END {
        return 0;
    }
    if a < 16 {
        return NONE;
    }
    if 16 + 8 * (n as usize) <= a {
        return NONE;
    }
    let f = a % 8;
    if f == LIST {
        return 0;
    }
    if f < MARK {
        return NONE;
    }
    0
}

// Makes every entry free, and every head, tail and bucket empty.
fn wipe(words: &mut [u32], n: u32)
    ensures { Wiped words.old n words.new }
{
    for i in 7..words.len() {
        put(words, i, blank_word(n, i));
    }
}

// Writes the fresh directory of settings, with its entries E and index bits k.
pub fn form_fresh(words: &mut [u32], settings: Settings, entries: u32, bits: u32)
    requires { Fits (asked settings) entries bits words.old }
    ensures { words.new ≡ fresh_words (asked settings) }
{
    put_settings(words, settings, entries, bits);
    wipe(words, entries);
}
