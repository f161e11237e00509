// What document 01 lays down before any directory: the table of policies, what is derived from settings, the bucket of a page, and the names of the words.
#![tactic(auto)]

ghost use Rattle.std.specs.Prelude.{not, ◌≡◌, ◌^◌, ◌≤◌, ◌<◌};
ghost use Rattle.meaning.specs.Layout.{lists_of, is_list, is_held, is_clock, is_split, entries_of, bits_of, length_for, bucket_of, least_capacity, first_fits, second_fits, mark_limit};
ghost use Rattle.meaning.specs.Answers.{asked, says};
ghost use Rattle.meaning.specs.Rules.{word6_fits, arc_sizes, sizes_right};
ghost use Rattle.settings.specs.Policies.{number_of, IsOfNumber, judged};

use meaning::{Refusal, Settings};

// No entry, no page, no slot.
pub const NONE: u32 = 4294967295;

// The header words: policy, capacity, entries, index bits, first and second setting, the target or the hand, and the last, which is always 0.
pub const POLICY: usize = 0;

pub const CAPACITY: usize = 1;

pub const ENTRIES: usize = 2;

pub const BITS: usize = 3;

pub const FIRST: usize = 4;

pub const SECOND: usize = 5;

pub const WORD6: usize = 6;

pub const END: usize = 15;

// The words of an entry, in their order.
pub const PAGE: usize = 0;

pub const LIST: usize = 1;

pub const SLOT: usize = 2;

pub const PREVIOUS: usize = 3;

pub const NEXT: usize = 4;

pub const CHAIN: usize = 5;

pub const MARK: usize = 6;

pub const LAST: usize = 7;

// What one slot counts in ARC's target.
pub const UNIT: u32 = 1;

// The largest capacity.
const LARGEST: u32 = 512;

// A policy that form accepts.
#[derive(Clone, Copy, Debug, PartialEq, Eq)]
pub enum Policy {
    Lru,
    Clock,
    Segmented,
    TwoQ,
    Arc,
}

impl TryFrom<u32> for Policy {
    type Error = Refusal;

    ghost try_from_gives = { IsOfNumber };

    // The policy of a number, 1 to 5.
    fn try_from(number: u32) -> Result<Policy, Refusal> {
        match number {
            1 => Ok(Policy::Lru),
            2 => Ok(Policy::Clock),
            3 => Ok(Policy::Segmented),
            4 => Ok(Policy::TwoQ),
            5 => Ok(Policy::Arc),
            _ => Err(Refusal::NoSuchPolicy),
        }
    }
}

impl Policy {
    // Policies 3 and 4, whose first setting is a size.
    #[tactic(auto, unfolding(meaning::specs::Layout::is_split))]
    fn is_split(self) -> bool
        ensures { result ≡ is_split (number_of self) }
    {
        matches!(self, Policy::Segmented | Policy::TwoQ)
    }

    // The least capacity of a policy.
    #[tactic(auto, unfolding(meaning::specs::Layout::least_capacity))]
    fn least_capacity(self) -> u32
        ensures { result ≡ least_capacity (number_of self) }
    {
        if self.is_split() { 2 } else { 1 }
    }

    // The first setting is 1 to C-1 for policies 3 and 4, 0 for any other.
    #[tactic(auto, unfolding(meaning::specs::Layout::first_fits))]
    fn first_fits(self, capacity: u32, first: u32) -> bool
        ensures { result ≡ first_fits (number_of self) capacity first }
    {
        if self.is_split() {
            1 <= first && first < capacity
        } else {
            first == 0
        }
    }

    // The second setting is 1 to C for 2Q, 0 for any other.
    #[tactic(auto, unfolding(meaning::specs::Layout::second_fits))]
    fn second_fits(self, capacity: u32, second: u32) -> bool
        ensures { result ≡ second_fits (number_of self) capacity second }
    {
        match self {
            Policy::TwoQ => 1 <= second && second <= capacity,
            _ => second == 0,
        }
    }
}

// The policy of settings that form accepts, or its refusal, 1 to 3.
#[tactic(auto, unfolding(crate::specs::Policies::judged, meaning::specs::Calls::refusal_of, meaning::specs::Layout::settings_refusal))]
pub fn accepted(settings: Settings) -> Result<Policy, Refusal>
    ensures { says number_of result ≡ judged (asked settings) }
{
    let policy = Policy::try_from(settings.policy)?;
    let capacity = settings.capacity;
    if capacity < policy.least_capacity() || LARGEST < capacity {
        return Err(Refusal::CapacityOutside);
    }
    if !policy.first_fits(capacity, settings.first) {
        return Err(Refusal::SettingOutside);
    }
    if !policy.second_fits(capacity, settings.second) {
        return Err(Refusal::SettingOutside);
    }
    Ok(policy)
}

// What follows goes by the number that words and callers hold, and not by a `Policy`: any number may stand there, and each clause speaks of all of them.

// How many entries a directory of these settings has.
#[tactic(auto, unfolding(meaning::specs::Layout::entries_of))]
pub fn entries_of(settings: Settings) -> usize
    ensures { result ≡ entries_of settings.policy settings.capacity settings.second }
{
    match Policy::try_from(settings.policy) {
        Ok(Policy::TwoQ) => settings.capacity as usize + settings.second as usize,
        Ok(Policy::Arc) => 2 * (settings.capacity as usize),
        _ => settings.capacity as usize,
    }
}

// The index bits of n entries: the least number k, at most 10, with 2^k at least n.
pub fn bits_of(n: usize) -> usize
    ensures { (result ≡ bits_of n) × (result ≤ 10) }
{
    for k in 0..10 {
        if n <= buckets_of(k) {
            return k;
        }
    }
    10
}

// How many buckets k index bits make: 2^k.
pub fn buckets_of(k: usize) -> usize
    requires { k ≤ 10 }
    ensures { (result ≡ 2 ^ k) × (result ≤ 1024) }
{
    1 << k
}

// How many words a directory of n entries takes.
pub fn length_for(n: usize) -> usize
    requires { n ≤ 1024 }
    ensures { (result ≡ length_for n) × (result ≤ 9232) }
{
    16 + 8 * n + buckets_of(bits_of(n))
}

// How many lists a policy uses.
#[tactic(auto, unfolding(meaning::specs::Layout::lists_of))]
pub fn lists_of(policy: u32) -> u32
    ensures { result ≡ lists_of policy }
{
    match Policy::try_from(policy) {
        Ok(Policy::Segmented) => 2,
        Ok(Policy::TwoQ) => 3,
        Ok(Policy::Arc) => 4,
        _ => 1,
    }
}

// Whether the lists of a policy have an order: all but CLOCK's.
pub fn has_order(policy: u32) -> bool
    ensures { result ≡ not (is_clock policy) }
{
    !matches!(Policy::try_from(policy), Ok(Policy::Clock))
}

// The largest mark of a policy: 1 for CLOCK, 0 for any other.
#[tactic(auto, unfolding(meaning::specs::Layout::mark_limit))]
pub fn mark_limit(policy: u32) -> u32
    ensures { result ≡ mark_limit policy }
{
    if has_order(policy) { 0 } else { 1 }
}

// Whether a policy uses a list.
#[tactic(auto, unfolding(meaning::specs::Layout::is_list))]
pub fn is_list(policy: u32, list: u32) -> bool
    ensures { result ≡ is_list policy list }
{
    1 <= list && list <= lists_of(policy)
}

// Whether list j is of held pages.
#[tactic(auto, unfolding(meaning::specs::Layout::is_held))]
pub fn is_held(j: u32) -> bool
    ensures { result ≡ is_held j }
{
    matches!(j, 1 | 2)
}

// The bucket of a page, of 2^k: the top k bits of (page x 2,654,435,769) mod 2^32, and 0 when k is 0.
#[tactic(auto, unfolding(meaning::specs::Layout::bucket_of))]
pub fn bucket_of(k: u32, page: u32) -> usize
    requires { k ≤ 32 }
    ensures { result ≡ bucket_of k page }
{
    let x = u64::from(page) * 2654435769 % 4294967296;
    if k == 0 {
        return 0;
    }
    (x >> (32 - k)) as usize
}

// Word 6 is at most C (ARC), below C (CLOCK), 0 otherwise.
#[tactic(auto, unfolding(meaning::specs::Rules::word6_fits))]
pub fn word6_fits(settings: Settings, v: u32) -> bool
    requires { settings.capacity ≤ 512 }
    ensures { result ≡ word6_fits settings.policy settings.capacity v }
{
    match Policy::try_from(settings.policy) {
        Ok(Policy::Arc) => v <= UNIT * settings.capacity,
        Ok(Policy::Clock) => v < settings.capacity,
        _ => v == 0,
    }
}

// Rule h for ARC, of the sizes of its four lists.
#[tactic(auto, unfolding(meaning::specs::Rules::arc_sizes))]
fn arc_sizes(c: u32, n1: u32, n2: u32, n3: u32, n4: u32) -> bool
    requires { (c ≤ 512) × (n1 ≤ 1024) × (n2 ≤ 1024) × (n3 ≤ 1024) × (n4 ≤ 1024) }
    ensures { result ≡ arc_sizes c n1 n2 n3 n4 }
{
    n1 + n3 <= c && n1 + n2 + n3 + n4 <= 2 * c && (n3 + n4 == 0 || n1 + n2 == c)
}

// Rule h, of the settings and the sizes of the lists.
#[tactic(auto, unfolding(meaning::specs::Rules::sizes_right))]
pub fn sizes_right(settings: Settings, n1: u32, n2: u32, n3: u32, n4: u32) -> bool
    requires { (settings.capacity ≤ 512) × (n1 ≤ 1024) × (n2 ≤ 1024) × (n3 ≤ 1024) × (n4 ≤ 1024) }
    ensures { result ≡ sizes_right settings.policy settings.capacity settings.first settings.second n1 n2 n3 n4 }
{
    if settings.capacity < n1 + n2 {
        return false;
    }
    match Policy::try_from(settings.policy) {
        Ok(Policy::Segmented) => n2 <= settings.first,
        Ok(Policy::TwoQ) => n3 <= settings.second,
        Ok(Policy::Arc) => arc_sizes(settings.capacity, n1, n2, n3, n4),
        _ => true,
    }
}
