// The public calls as C is to have them (pagedir_c exports them, as a crate is a library or a static library): each returns the refusal number, 0 for none, and a refusal leaves every lent word as it was.
#![tactic(auto)]

ghost use Rattle.std.specs.Prelude.{◌≡◌, ◌+◌, ◌*◌};
ghost use Rattle.meaning.specs.Base.{one_if};
ghost use Rattle.meaning.specs.Layout.{four};
ghost use Rattle.meaning.specs.Calls.{audited, formed, words_for, looked, reported, both, curved, requested, replayed};
ghost use Rattle.meaning.specs.Text.{read, wrote};
ghost use Rattle.meaning.specs.Answers.{says, done_says, reply_of, sight_of, counts_of, accepted_of, refusal_says};
ghost use Rattle.pagedir.specs.Promises.{number, number_and_line, Told, ToldAnd, Left, single, sight_words, reply_words, count_words, read_words};

use meaning::{Accepted, Answer, Counts, Looked, Refusal, Settings};
use settings::NONE;

// The number of a refusal, 0 for none.
fn code(said: Result<(), Refusal>) -> u32
    ensures { result ≡ number (done_says said) }
{
    match said {
        Ok(()) => 0,
        Err(refusal) => refusal.number(),
    }
}

// Hands on what a call gave, as answer words, or returns its refusal's number.
fn told<const N: usize>(said: Result<[u32; N], Refusal>, answer: &mut [u32; N]) -> u32
    ensures { Told number (λ ws. ws) (says (λ ws. ws) said.entry) answer.old result answer.new }
{
    match said {
        Ok(words) => {
            answer.copy_from_slice(&words);
            0
        }
        Err(refusal) => code(Err(refusal)),
    }
}

// One number.
fn single(number: u32) -> [u32; 1]
    ensures { result ≡ single number }
{
    [number]
}

// The length that pd_form asks.
pub fn pd_words(policy: u32, capacity: u32, first: u32, second: u32, answer: &mut [u32; 1]) -> u32
    ensures { Told number single (words_for (four policy capacity first second)) answer.old result answer.new }
{
    let settings = Settings {
        policy,
        capacity,
        first,
        second,
    };
    told(policies::words_for(settings).map(single), answer)
}

// Writes a fresh directory over the words.
pub fn pd_form(policy: u32, capacity: u32, first: u32, second: u32, words: &mut [u32]) -> u32
    ensures { Left (formed (four policy capacity first second) words.old) result words.new }
{
    let settings = Settings {
        policy,
        capacity,
        first,
        second,
    };
    code(policies::form(settings, words))
}

// 1 if the words are a sound directory, else 0.
#[tactic(auto, unfolding(meaning::specs::Base::one_if))]
pub fn pd_audit(words: &[u32]) -> u32
    ensures { result ≡ one_if (audited words.now) }
{
    u32::from(sound::audit(words))
}

// 1 hit, 2 loaded, 3 swapped; the slot; the page put out, or NONE; the marks cleared.
fn reply_words(answer: Answer) -> [u32; 4]
    ensures { result ≡ reply_words (reply_of answer) }
{
    match answer {
        Answer::Hit { slot, cleared } => [1, slot, NONE, cleared],
        Answer::Loaded { slot, cleared } => [2, slot, NONE, cleared],
        Answer::Swapped { slot, out, cleared } => [3, slot, out, cleared],
    }
}

// Asks for a page: 1 hit, 2 loaded, 3 swapped; the slot; the page put out, or NONE; the marks cleared.
pub fn pd_request(words: &mut [u32], page: u32, answer: &mut [u32; 4]) -> u32
    ensures { ToldAnd number reply_words (requested words.old page) answer.old result answer.new words.new }
{
    told(policies::request(words, page).map(reply_words), answer)
}

// Hits; loads; swaps.
fn count_words(counts: Counts) -> [u32; 3]
    ensures { result ≡ count_words (counts_of counts) }
{
    [counts.hits, counts.loads, counts.swaps]
}

// Replays a trace: hits, loads and swaps go to the answer.
pub fn pd_replay(words: &mut [u32], trace: &[u32], answer: &mut [u32; 3]) -> u32
    ensures { ToldAnd number count_words (replayed words.old trace.now) answer.old result answer.new words.new }
{
    told(replay::replay(words, trace).map(count_words), answer)
}

// 0 absent, 1 held, 2 remembered; and the slot, or NONE.
fn sight_words(sight: Looked) -> [u32; 2]
    ensures { result ≡ sight_words (sight_of sight) }
{
    match sight {
        Looked::Absent => [0, NONE],
        Looked::Held { slot } => [1, slot],
        Looked::Remembered => [2, NONE],
    }
}

// Where a page is: 0 absent, 1 held, 2 remembered; and its slot, or NONE.
pub fn pd_look(words: &[u32], page: u32, answer: &mut [u32; 2]) -> u32
    ensures { Told number sight_words (looked words.now page) answer.old result answer.new }
{
    told(policies::look(words, page).map(sight_words), answer)
}

// The pages of a list, front first: how many goes to the answer.
pub fn pd_report(words: &[u32], list: u32, res: &mut [u32], answer: &mut [u32; 1]) -> u32
    ensures { ToldAnd number single (reported words.now list res.old) answer.old result answer.new res.new }
{
    told(policies::report(words, list, res).map(single), answer)
}

// The LRU hits at each capacity from 1 to the largest, and the LRU list at the largest.
pub fn pd_curve(largest: u32, trace: &[u32], res: &mut [u32], work: &mut [u32]) -> u32
    ensures { Left (curved largest trace.now res.old work.old) result (both res.new work.new) }
{
    code(replay::curve(largest, trace, res, work))
}

// The number of a refusal, and what it carries in the high half.
fn refusal_at(refusal: Refusal) -> u64
    ensures { result ≡ (refusal_says refusal).number + 4294967296 * (refusal_says refusal).carried }
{
    u64::from(refusal.number()) + 4294967296 * u64::from(refusal.carried())
}

// Policy; capacity; first; second; count.
fn read_words(accepted: Accepted) -> [u32; 5]
    ensures { result ≡ read_words (accepted_of accepted) }
{
    let s = accepted.settings;
    [s.policy, s.capacity, s.first, s.second, accepted.count]
}

// Reads a trace text: policy, capacity, first, second and count go to the answer, and the pages to the front of the trace.
pub fn pd_read(text: &[u8], trace: &mut [u32], answer: &mut [u32; 5]) -> u64
    ensures { ToldAnd number_and_line read_words (read text.now trace.old) answer.old result answer.new trace.new }
{
    match trace_text::read(text, trace) {
        Ok(accepted) => {
            *answer = read_words(accepted);
            0
        }
        Err(refusal) => refusal_at(refusal),
    }
}

// Writes a trace text: its length goes to the answer.
pub fn pd_write(
    policy: u32,
    capacity: u32,
    first: u32,
    second: u32,
    trace: &[u32],
    text: &mut [u8],
    answer: &mut [u32; 1],
) -> u32
    ensures { ToldAnd number single (wrote policy capacity first second trace.now text.old) answer.old result answer.new text.new }
{
    let settings = Settings {
        policy,
        capacity,
        first,
        second,
    };
    told(trace_text::write(settings, trace, text).map(single), answer)
}
