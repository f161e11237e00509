// The C functions of the static library, each by its symbol: what each promises is what pagedir's function of that name does.
#![tactic(auto)]

ghost use Rattle.std.specs.Prelude.{◌≡◌};
ghost use Rattle.meaning.specs.Base.{one_if};
ghost use Rattle.meaning.specs.Layout.{four};
ghost use Rattle.meaning.specs.Calls.{audited, formed, words_for, looked, reported, both, curved, requested, replayed};
ghost use Rattle.meaning.specs.Text.{read, wrote};
ghost use Rattle.pagedir.specs.Promises.{number, number_and_line, Told, ToldAnd, Left, single, sight_words, reply_words, count_words, read_words};

// The length that pd_form asks.
#[unsafe(no_mangle)]
pub extern "C" fn pd_words(
    policy: u32,
    capacity: u32,
    first: u32,
    second: u32,
    answer: &mut [u32; 1],
) -> u32
    ensures { Told number single (words_for (four policy capacity first second)) answer.old result answer.new }
{
    pagedir::pd_words(policy, capacity, first, second, answer)
}

// Writes a fresh directory over the words.
#[unsafe(no_mangle)]
pub extern "C" fn pd_form(
    policy: u32,
    capacity: u32,
    first: u32,
    second: u32,
    words: &mut [u32],
) -> u32
    ensures { Left (formed (four policy capacity first second) words.old) result words.new }
{
    pagedir::pd_form(policy, capacity, first, second, words)
}

// 1 if the words are a sound directory, else 0.
#[unsafe(no_mangle)]
pub extern "C" fn pd_audit(words: &[u32]) -> u32
    ensures { result ≡ one_if (audited words.now) }
{
    pagedir::pd_audit(words)
}

// Asks for a page: 1 hit, 2 loaded, 3 swapped; the slot; the page put out, or NONE; the marks cleared.
#[unsafe(no_mangle)]
pub extern "C" fn pd_request(words: &mut [u32], page: u32, answer: &mut [u32; 4]) -> u32
    ensures { ToldAnd number reply_words (requested words.old page) answer.old result answer.new words.new }
{
    pagedir::pd_request(words, page, answer)
}

// Replays a trace: hits, loads and swaps go to the answer.
#[unsafe(no_mangle)]
pub extern "C" fn pd_replay(words: &mut [u32], trace: &[u32], answer: &mut [u32; 3]) -> u32
    ensures { ToldAnd number count_words (replayed words.old trace.now) answer.old result answer.new words.new }
{
    pagedir::pd_replay(words, trace, answer)
}

// Where a page is: 0 absent, 1 held, 2 remembered; and its slot, or NONE.
#[unsafe(no_mangle)]
pub extern "C" fn pd_look(words: &[u32], page: u32, answer: &mut [u32; 2]) -> u32
    ensures { Told number sight_words (looked words.now page) answer.old result answer.new }
{
    pagedir::pd_look(words, page, answer)
}

// The pages of a list, front first: how many goes to the answer.
#[unsafe(no_mangle)]
pub extern "C" fn pd_report(words: &[u32], list: u32, res: &mut [u32], answer: &mut [u32; 1]) -> u32
    ensures { ToldAnd number single (reported words.now list res.old) answer.old result answer.new res.new }
{
    pagedir::pd_report(words, list, res, answer)
}

// The LRU hits at each capacity from 1 to the largest, and the LRU list at the largest.
#[unsafe(no_mangle)]
pub extern "C" fn pd_curve(largest: u32, trace: &[u32], res: &mut [u32], work: &mut [u32]) -> u32
    ensures { Left (curved largest trace.now res.old work.old) result (both res.new work.new) }
{
    pagedir::pd_curve(largest, trace, res, work)
}

// Reads a trace text: policy, capacity, first, second and count go to the answer, and the pages to the front of the trace.
#[unsafe(no_mangle)]
pub extern "C" fn pd_read(text: &[u8], trace: &mut [u32], answer: &mut [u32; 5]) -> u64
    ensures { ToldAnd number_and_line read_words (read text.now trace.old) answer.old result answer.new trace.new }
{
    pagedir::pd_read(text, trace, answer)
}

// Writes a trace text: its length goes to the answer.
#[unsafe(no_mangle)]
pub extern "C" fn pd_write(
    policy: u32,
    capacity: u32,
    first: u32,
    second: u32,
    trace: &[u32],
    text: &mut [u8],
    answer: &mut [u32; 1],
) -> u32
    ensures { ToldAnd number single (wrote policy capacity first second trace.now text.old) answer.old result answer.new text.new }
{
    pagedir::pd_write(policy, capacity, first, second, trace, text, answer)
}
