// Rule h: the sizes of the lists.
#![tactic(auto)]

ghost use Rattle.std.specs.Prelude.{◌≡◌};
ghost use Rattle.meaning.specs.Rules.{rule_h};

use readers::{Entries, settings_in};
use settings::sizes_right;

// Rule h: the sizes of the lists are as the policy asks.
#[tactic(auto, unfolding(meaning::specs::Rules::rule_h))]
pub fn rule_h(d: &Entries) -> bool
    ensures { result ≡ rule_h d.now.words.now }
{
    sizes_right(
        settings_in(d.words),
        d.count_on(1),
        d.count_on(2),
        d.count_on(3),
        d.count_on(4),
    )
}
