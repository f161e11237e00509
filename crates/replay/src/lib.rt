// Replay: the requests of a trace in turn, with true counts.
#![tactic(auto)]

ghost use Rattle.std.specs.Prelude.{◌≡◌, true, false, ◌+◌, ◌≤◌, ◌<◌, length};
ghost use Rattle.meaning.specs.Neighbours.{NONE, has};
ghost use Rattle.meaning.specs.Rules.{sound};
ghost use Rattle.meaning.specs.Answers.{reply_of, counts_of};
ghost use Rattle.meaning.specs.Calls.{counted};
ghost use Rattle.replay.specs.Replays.{RanAs, ReplayedAs};

pub use curves::curve;
use meaning::{Answer, Counts, Refusal};
use sound::checked;

// One more answer.
fn counted(counts: Counts, answer: Answer) -> Counts
    requires { counts.hits + counts.loads + counts.swaps < 65535 }
    ensures { (counts_of result ≡ counted (counts_of counts) (reply_of answer).kind) × (result.hits + result.loads + result.swaps ≤ counts.hits + counts.loads + counts.swaps + 1) }
{
    match answer {
        Answer::Hit { .. } => Counts {
            hits: counts.hits + 1,
            ..counts
        },
        Answer::Loaded { .. } => Counts {
            loads: counts.loads + 1,
            ..counts
        },
        Answer::Swapped { .. } => Counts {
            swaps: counts.swaps + 1,
            ..counts
        },
    }
}

// The requests of a trace in turn, on a sound directory.
fn run(words: &mut [u32], trace: &[u32]) -> Counts
    requires { (sound words.old ≡ true) × (length trace.now ≤ 65535) × (has trace.now NONE ≡ false) }
    ensures { RanAs words.old trace.now (counts_of result) words.new }
{
    let mut counts = Counts {
        hits: 0,
        loads: 0,
        swaps: 0,
    };
    for page in trace {
        counts = counted(counts, policies::step(words, *page));
    }
    counts
}

// Replays a trace: 5, 7, 6; all pages are checked before the first request, and the directory is audited once.
pub fn replay(words: &mut [u32], trace: &[u32]) -> Result<Counts, Refusal>
    ensures { ReplayedAs words.old trace.now result words.new }
{
    checked(words)?;
    if 65535 < trace.len() {
        return Err(Refusal::TooLong);
    }
    if trace.contains(&settings::NONE) {
        return Err(Refusal::PageIsNone);
    }
    Ok(run(words, trace))
}
