// Reporting the pages of a list.
ghost use Rattle.std.specs.Prelude.{◌≡◌, true, ◌+◌, ◌*◌, ◌≤◌, length};
ghost use Rattle.meaning.specs.Base.{series};
ghost use Rattle.meaning.specs.Rules.{sound, page_in};
ghost use Rattle.meaning.specs.Calls.{over};
ghost use Rattle.form_look_report.specs.Reports.{pages_of, ReportedAs};

use lists::{cell, held, size, word, write_pages};
use meaning::Refusal;
use settings::{PAGE, POLICY, has_order, is_list};
use sound::checked;

// How many pages are reported of a list: for CLOCK the held ones.
fn count_on(words: &[u32], list: u32) -> u32
    requires words_value { sound words.now ≡ true }
    requires le_list { (1 ≤ list) × (list ≤ 4) }
    ensures { result ≡ length (pages_of words.now list) }
{
    if has_order(word(words, POLICY)) {
        return size(words, list);
    }
    held(words)
}

// Writes the pages of the first n entries, in their order.
fn write_first(words: &[u32], n: u32, res: &mut [u32])
    requires { (16 + 8 * n ≤ length words.now) × (n ≤ length res.old) }
    ensures { res.new ≡ over (series (page_in words.now) n 0) res.old }
{
    for i in 0..n {
        res[i as usize] = cell(words, i, PAGE);
    }
}

// Writes the n pages of a list, front first, or for CLOCK in slot order, which is that of the entries.
fn write_list(words: &[u32], list: u32, n: u32, res: &mut [u32])
    requires words_value { sound words.now ≡ true }
    requires le_list { (1 ≤ list) × (list ≤ 4) }
    requires n_value { (n ≡ length (pages_of words.now list)) × (n ≤ length res.old) }
    ensures { res.new ≡ over (pages_of words.now list) res.old }
{
    if has_order(word(words, POLICY)) {
        write_pages(words, list, res);
        return;
    }
    write_first(words, n, res);
}

// Writes the pages of a list and answers how many, or refuses 5, 9 or 8; words past the pages stay in the buffer, which is lent, as there is no heap.
pub fn report(words: &[u32], list: u32, res: &mut [u32]) -> Result<u32, Refusal>
    ensures { ReportedAs words.now list res.old result res.new }
{
    checked(words)?;
    if !is_list(word(words, POLICY), list) {
        return Err(Refusal::NoSuchList);
    }
    let n = count_on(words, list);
    if res.len() < n as usize {
        return Err(Refusal::TooShort);
    }
    write_list(words, list, n, res);
    Ok(n)
}
