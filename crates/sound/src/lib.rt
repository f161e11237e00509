// The audit: which of the rules a to h of a sound directory is broken first.
#![tactic(auto)]

ghost use Rattle.std.specs.Prelude.{◌≡◌, true, false, IfOk, IfErr};
ghost use Rattle.meaning.specs.Rules.{broken, sound};
ghost use Rattle.meaning.specs.Calls.{audited, gave, refused, on_page};
ghost use Rattle.meaning.specs.Answers.{done_says};
ghost use Rattle.sound.specs.Numbers.{number_or_0};

use meaning::Refusal;
use readers::Entries;
use rule_d::rule_d;
use rule_h::rule_h;
use rules_abc::{rule_a, rule_b, rule_c};
use rules_efg::{rule_e, rule_f, rule_g};
use settings::NONE;

// Document 01's rules a to h.
#[derive(Clone, Copy, Debug, PartialEq, Eq)]
pub enum Rule {
    A,
    B,
    C,
    D,
    E,
    F,
    G,
    H,
}

// The first of the rules a to h that does not hold, each judged only when the earlier ones hold; or none. Eight tests in their order: a list of functions would be a switch.
#[tactic(auto, unfolding(meaning::specs::Rules::broken))]
pub fn first_broken(words: &[u32]) -> Option<Rule>
    ensures { number_or_0 result ≡ broken words.now }
{
    if !rule_a(words) {
        return Some(Rule::A);
    }
    let d = Entries { words };
    if !rule_b(&d) {
        return Some(Rule::B);
    }
    if !rule_c(&d) {
        return Some(Rule::C);
    }
    if !rule_d(&d) {
        return Some(Rule::D);
    }
    if !rule_e(&d) {
        return Some(Rule::E);
    }
    if !rule_f(&d) {
        return Some(Rule::F);
    }
    if !rule_g(&d) {
        return Some(Rule::G);
    }
    if !rule_h(&d) {
        return Some(Rule::H);
    }
    None
}

// Whether the words are a sound directory.
pub fn audit(words: &[u32]) -> bool
    ensures { result ≡ audited words.now }
{
    first_broken(words).is_none()
}

// Refuses words that are not a sound directory: 5.
#[tactic(auto, unfolding(meaning::specs::Calls::audited))]
pub fn checked(words: &[u32]) -> Result<(), Refusal>
    ensures ok { IfOk result (λ u. sound words.now ≡ true) }
    ensures refused { IfErr result (λ e. (e ≡ Refusal.Unsound) × (sound words.now ≡ false)) }
{
    if audit(words) {
        Ok(())
    } else {
        Err(Refusal::Unsound)
    }
}

// Refuses what any call on words and a page refuses first: 5, and 6 for a page that is NONE.
#[tactic(auto, unfolding(meaning::specs::Calls::on_page))]
pub fn askable(words: &[u32], page: u32) -> Result<(), Refusal>
    ensures { done_says result ≡ on_page words.now page (gave tt) refused }
{
    checked(words)?;
    if page == NONE {
        return Err(Refusal::PageIsNone);
    }
    Ok(())
}
