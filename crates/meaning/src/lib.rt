// What the public calls are given and answer: settings, refusals, and what each call gives where it does not refuse.
// What each value means stands in specs/Answers.antt.
#![tactic(auto)]

ghost use Rattle.std.specs.Prelude.{◌≡◌};
ghost use Rattle.meaning.specs.Answers.{refusal_says};

use std::error::Error;
use std::fmt;

// What a directory is formed with, in any numbers: words 0, 1, 4 and 5.
#[derive(Clone, Copy, Debug, PartialEq, Eq)]
pub struct Settings {
    pub policy: u32,
    pub capacity: u32,
    pub first: u32,
    pub second: u32,
}

impl fmt::Display for Settings {
    fn fmt<W: fmt::Write>(&self, f: &mut fmt::Formatter<W>) -> fmt::Result {
        write!(
            f,
            "policy {} capacity {} first {} second {}",
            self.policy, self.capacity, self.first, self.second
        )
    }
}

// Why a call refuses; document 01's number of each is in `number`.
#[derive(Clone, Copy, Debug, PartialEq, Eq)]
pub enum Refusal {
    // The policy is not 1 to 5.
    NoSuchPolicy,
    // The capacity is outside its range.
    CapacityOutside,
    // The first or the second setting is outside its range.
    SettingOutside,
    // The length of the words lent to form is not the exact one.
    WrongLength,
    // The lent words are not a sound directory.
    Unsound,
    // A page asked for is NONE.
    PageIsNone,
    // A trace over 65,535 pages, or a text over 65,535 bytes.
    TooLong,
    // A buffer for results, working words or trace is too short.
    TooShort,
    // The list number is none of the policy's.
    NoSuchList,
    // A text is wrongly written, first in this line.
    WrongLine(u32),
}

impl Refusal {
    // The number of a refusal, 1 to 10.
    pub fn number(self) -> u32
        ensures { result ≡ (refusal_says self).number }
    {
        match self {
            Refusal::NoSuchPolicy => 1,
            Refusal::CapacityOutside => 2,
            Refusal::SettingOutside => 3,
            Refusal::WrongLength => 4,
            Refusal::Unsound => 5,
            Refusal::PageIsNone => 6,
            Refusal::TooLong => 7,
            Refusal::TooShort => 8,
            Refusal::NoSuchList => 9,
            Refusal::WrongLine(_) => 10,
        }
    }

    // What a refusal carries: the line for 10, 0 for any other.
    pub fn carried(self) -> u32
        ensures { result ≡ (refusal_says self).carried }
    {
        match self {
            Refusal::WrongLine(line) => line,
            _ => 0,
        }
    }
}

// The number, and the line that is wrongly written.
impl fmt::Display for Refusal {
    fn fmt<W: fmt::Write>(&self, f: &mut fmt::Formatter<W>) -> fmt::Result {
        match self {
            Refusal::WrongLine(line) => write!(f, "refused {} line {line}", self.number()),
            _ => write!(f, "refused {}", self.number()),
        }
    }
}

impl Error for Refusal {}

// What `request` gives: the slot, the page put out, and the marks that the sweep cleared.
#[derive(Clone, Copy, Debug, PartialEq, Eq)]
pub enum Answer {
    Hit { slot: u32, cleared: u32 },
    Loaded { slot: u32, cleared: u32 },
    Swapped { slot: u32, out: u32, cleared: u32 },
}

// The kind, the slot, the page put out, and the marks cleared, where any were.
impl fmt::Display for Answer {
    fn fmt<W: fmt::Write>(&self, f: &mut fmt::Formatter<W>) -> fmt::Result {
        let cleared = match self {
            Answer::Hit { slot, cleared } => {
                write!(f, "hit {slot}")?;
                cleared
            }
            Answer::Loaded { slot, cleared } => {
                write!(f, "loaded {slot}")?;
                cleared
            }
            Answer::Swapped { slot, out, cleared } => {
                write!(f, "swapped {slot} out {out}")?;
                cleared
            }
        };
        if *cleared != 0 {
            write!(f, " cleared {cleared}")?;
        }
        Ok(())
    }
}

// What `look` gives.
#[derive(Clone, Copy, Debug, PartialEq, Eq)]
pub enum Looked {
    Absent,
    Held { slot: u32 },
    Remembered,
}

impl fmt::Display for Looked {
    fn fmt<W: fmt::Write>(&self, f: &mut fmt::Formatter<W>) -> fmt::Result {
        match self {
            Looked::Absent => f.write_str("absent"),
            Looked::Held { slot } => write!(f, "held {slot}"),
            Looked::Remembered => f.write_str("remembered"),
        }
    }
}

// What `replay` gives: how many requests were hits, loads and swaps.
#[derive(Clone, Copy, Debug, PartialEq, Eq)]
pub struct Counts {
    pub hits: u32,
    pub loads: u32,
    pub swaps: u32,
}

impl fmt::Display for Counts {
    fn fmt<W: fmt::Write>(&self, f: &mut fmt::Formatter<W>) -> fmt::Result {
        write!(
            f,
            "hits {} loads {} swaps {}",
            self.hits, self.loads, self.swaps
        )
    }
}

// What `read` gives: the settings and the number of pages.
#[derive(Clone, Copy, Debug, PartialEq, Eq)]
pub struct Accepted {
    pub settings: Settings,
    pub count: u32,
}

impl fmt::Display for Accepted {
    fn fmt<W: fmt::Write>(&self, f: &mut fmt::Formatter<W>) -> fmt::Result {
        write!(f, "{} count {}", self.settings, self.count)
    }
}
