// Looking at a page: whether it is held, and where.
ghost use Rattle.std.specs.Prelude.{◌≡◌, true, ◌<◌};
ghost use Rattle.meaning.specs.Rules.{sound};
ghost use Rattle.form_look_report.specs.Looks.{SeenAs, LookedAs};

use lists::{cell, find};
use meaning::{Looked, Refusal};
use settings::{LIST, SLOT, is_held};
use sound::askable;

// Where a page stands in a sound directory: on a list of held pages, on one of ghosts, or nowhere.
fn seen(words: &[u32], page: u32) -> Looked
    requires { (sound words.now ≡ true) × (page < 4294967295) }
    ensures { SeenAs words.now page result }
{
    let Some(found) = find(words, page) else {
        return Looked::Absent;
    };
    if is_held(cell(words, found.entry, LIST)) {
        return Looked::Held {
            slot: cell(words, found.entry, SLOT),
        };
    }
    Looked::Remembered
}

// Whether a page is held, with its slot, or remembered, or absent; refuses 5 and 6, and changes nothing.
pub fn look(words: &[u32], page: u32) -> Result<Looked, Refusal>
    ensures { LookedAs words.now page result }
{
    askable(words, page)?;
    Ok(seen(words, page))
}
