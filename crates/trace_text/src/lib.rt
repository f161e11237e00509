// The trace text: a reader and a writer.
#![tactic(auto)]

ghost use Rattle.std.specs.Prelude.{◌≡◌, ◌+◌, ◌≤◌, ◌<◌, length, MatchResult};
ghost use Rattle.std.proofs.lemmas.List.Edits.{sets};
ghost use Rattle.meaning.specs.Text.{line as Text·line, first_wrong, pages_in, page_key, line_of, page_lines};
ghost use Rattle.meaning.specs.Answers.{asked};
ghost use Rattle.meaning.specs.declared.Refusal.TheVariants.{WrongLine};
ghost use Rattle.trace_text.specs.Promises.{HeadAs, PagesAs, ReadAs, text_with, WrittenAs};
ghost use Rattle.text_lines.specs.Lines.{took_of};

use meaning::{Accepted, Refusal, Settings};
use text_lines::{digits, line, put_line};

// Reads the lines 1 to 5: what they say and what stands after them, or refuses the first wrong one.
#[tactic(auto, unfolding(meaning::specs::Text::header))]
fn read_head(text: &[u8]) -> Result<(Accepted, &[u8]), Refusal>
    ensures { HeadAs text.now result }
{
    let (policy, rest) = line(text, b"policy=").ok_or(Refusal::WrongLine(1))?;
    let (capacity, rest) = line(rest, b"capacity=").ok_or(Refusal::WrongLine(2))?;
    let (first, rest) = line(rest, b"first=").ok_or(Refusal::WrongLine(3))?;
    let (second, rest) = line(rest, b"second=").ok_or(Refusal::WrongLine(4))?;
    let (count, rest) = line(rest, b"count=").ok_or(Refusal::WrongLine(5))?;
    let settings = Settings {
        policy,
        capacity,
        first,
        second,
    };
    Ok((Accepted { settings, count }, rest))
}

// Reads a page line: the page, and what stands after the line.
fn read_page(text: &[u8]) -> Option<(u32, &[u8])>
    ensures { took_of result ≡ Text·line page_key text.now }
{
    line(text, b"page=")
}

// Refuses the first wrong line of `count` page lines that are the whole text, the first of them line 6.
#[tactic(auto, using(crate::proofs::Reading::wrong_next))]
fn check_pages(text: &[u8], count: u32) -> Result<(), Refusal>
    requires { count ≤ 65535 }
    ensures { MatchResult result (λ _. first_wrong count 6 text.now ≡ 0) (λ r. let l = first_wrong count 6 text.now in (0 < l) × (r ≡ WrongLine l)) }
{
    let mut rest = text;
    for i in 0..count {
        (_, rest) = read_page(rest).ok_or(Refusal::WrongLine(6 + i))?;
    }
    if rest.is_empty() {
        Ok(())
    } else {
        Err(Refusal::WrongLine(6 + count))
    }
}

// Stores the pages of the right lines at the front of `trace`, at most as many as it has words.
#[tactic(auto, using(crate::proofs::Reading::store_next))]
fn store(text: &[u8], trace: &mut [u32])
    ensures { trace.new ≡ sets trace.old 0 (pages_in (length trace.old) text.now) }
{
    let mut rest = text;
    for word in trace.iter_mut() {
        let Some((page, after)) = read_page(rest) else {
            return;
        };
        *word = page;
        rest = after;
    }
}

// After the lines 1 to 5: refuses 7 (count), 8 (trace buffer under count) or 10 (page lines), or stores the pages; none is stored before the last line is checked.
fn read_pages(text: &[u8], count: u32, trace: &mut [u32]) -> Result<(), Refusal>
    ensures { PagesAs count text.now trace.old result trace.new }
{
    if count > 65535 {
        return Err(Refusal::TooLong);
    }
    let n = count as usize;
    if trace.len() < n {
        return Err(Refusal::TooShort);
    }
    check_pages(text, count)?;
    store(text, &mut trace[..n]);
    Ok(())
}

// Reads a trace text, its pages into `trace`, which is lent, as there is no heap; their number is in what is given. A refusal changes no word of it.
pub fn read(text: &[u8], trace: &mut [u32]) -> Result<Accepted, Refusal>
    ensures { ReadAs text.now trace.old result trace.new }
{
    if text.len() > 65535 {
        return Err(Refusal::TooLong);
    }
    let (head, rest) = read_head(text)?;
    read_pages(rest, head.count, trace)?;
    Ok(head)
}

// Counts the bytes of the page lines.
fn pages_len(trace: &[u32]) -> usize
    requires { length trace.now ≤ 65535 }
    ensures { (result ≡ length (page_lines trace.now)) × (result ≤ 1048560) }
{
    trace.iter().map(|&p| 6 + digits(p)).sum()
}

// Counts the bytes of the text: 40 for the keys and ends of the lines 1 to 5, and their digits, and the page lines.
#[tactic(auto, using(crate::proofs::Writing::text_length, text_lines::proofs::Writing::line_length))]
fn text_len(settings: Settings, trace: &[u32]) -> usize
    requires { length trace.now ≤ 65535 }
    ensures { (result ≡ length (text_with settings trace.now)) × (result ≤ 1048650) }
{
    40 + digits(settings.policy)
        + digits(settings.capacity)
        + digits(settings.first)
        + digits(settings.second)
        + digits(trace.len() as u32)
        + pages_len(trace)
}

// Writes a page line at `at`, and gives where it ends.
fn put_page(out: &mut [u8], at: usize, v: u32) -> usize
    requires { at + length (line_of page_key v) ≤ length out.old }
    ensures { (out.new ≡ sets out.old at (line_of page_key v)) × (result ≡ at + length (line_of page_key v)) }
{
    put_line(out, at, b"page=", v)
}

// Writes the page lines from `start` on.
fn put_pages(out: &mut [u8], start: usize, trace: &[u32])
    requires { start + length (page_lines trace.now) ≤ length out.old }
    ensures { out.new ≡ sets out.old start (page_lines trace.now) }
{
    let mut at = start;
    for &p in trace {
        at = put_page(out, at, p);
    }
}

// Writes the text at the front of `out`: five calls, since a loop over pairs of a key and a number is longer.
#[tactic(auto, using(crate::proofs::Writing::text_length))]
fn put_text(out: &mut [u8], settings: Settings, trace: &[u32])
    requires { (length (text_with settings trace.now) ≤ length out.old) × (length trace.now ≤ 65535) }
    ensures { out.new ≡ sets out.old 0 (text_with settings trace.now) }
{
    let a = put_line(out, 0, b"policy=", settings.policy);
    let b = put_line(out, a, b"capacity=", settings.capacity);
    let c = put_line(out, b, b"first=", settings.first);
    let d = put_line(out, c, b"second=", settings.second);
    let e = put_line(out, d, b"count=", trace.len() as u32);
    put_pages(out, e, trace);
}

// Writes a trace text at the front of `text`, and gives its length: a refusal changes no byte.
#[tactic(auto, using(crate::proofs::Writing::refuses_many, crate::proofs::Writing::refuses_short, crate::proofs::Writing::sends))]
pub fn write(settings: Settings, trace: &[u32], text: &mut [u8]) -> Result<u32, Refusal>
    ensures { WrittenAs (asked settings) trace.now text.old result text.new }
{
    if trace.len() > 65535 {
        return Err(Refusal::TooLong);
    }
    let n = text_len(settings, trace);
    if text.len() < n {
        return Err(Refusal::TooShort);
    }
    put_text(text, settings, trace);
    Ok(n as u32)
}
