// The calls that ask for a page.
ghost use Rattle.std.specs.Prelude.{true, ◌≡◌, ◌<◌};
ghost use Rattle.meaning.specs.Mem.{policy_in};
ghost use Rattle.meaning.specs.Rules.{sound};
ghost use Rattle.settings.specs.Policies.{number_of};
ghost use Rattle.policies.specs.Requests.{Stepped, Requested, SlotGiven};

use arc::arc_step;
use clock::clock_step;
use lru_policy::lru_step;
use meaning::{Answer, Refusal};
use segmented::segmented_step;
use settings::{POLICY, Policy};
use sound::askable;
use two_q::two_q_step;

// The policy of a sound directory, which word 0 names.
fn policy_of(words: &[u32]) -> Policy
    requires { sound words.now ≡ true }
    ensures { number_of result ≡ policy_in words.now }
{
    Policy::try_from(lists::word(words, POLICY)).unwrap()
}

// A request on a sound directory, by the policy in word 0.
pub fn step(words: &mut [u32], page: u32) -> Answer
    requires words_value { sound words.old ≡ true }
    requires page_bound { page < 4294967295 }
    ensures { Stepped words.old page result words.new }
{
    match policy_of(words) {
        Policy::Lru => lru_step(words, page),
        Policy::Clock => clock_step(words, page),
        Policy::Segmented => segmented_step(words, page),
        Policy::TwoQ => two_q_step(words, page),
        Policy::Arc => arc_step(words, page),
    }
}

// Asks for a page. Refused 5: the lent words are not a sound directory. Refused 6: the page is NONE.
pub fn request(words: &mut [u32], page: u32) -> Result<Answer, Refusal>
    ensures { Requested words.old page result words.new }
{
    askable(words, page)?;
    Ok(step(words, page))
}

// Asks for a page, of which only the slot is wanted: a refusal leaves early, and Hit, Loaded and Swapped are met by name, by `let .. else` as document 01 lays down.
pub fn slot_for(words: &mut [u32], page: u32) -> Result<u32, Refusal>
    ensures { SlotGiven words.old page result words.new }
{
    let answer = request(words, page)?;
    let Answer::Hit { slot, .. } = answer else {
        let Answer::Loaded { slot, .. } = answer else {
            let Answer::Swapped { slot, .. } = answer else {
                unreachable!();
            };
            return Ok(slot);
        };
        return Ok(slot);
    };
    Ok(slot)
}
