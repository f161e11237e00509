// Forming a directory: `form`, and the length that it asks.
ghost use Rattle.std.specs.Prelude.{◌≡◌, ◌≤◌, IfOk};
ghost use Rattle.meaning.specs.Answers.{asked, number_says};
ghost use Rattle.form_look_report.specs.Forms.{FormedAs, LongAs, entries_for};

use lists::form_fresh;
use meaning::{Refusal, Settings};
use settings::{accepted, bits_of, entries_of, length_for};

// How many entries a directory of settings has, or the refusal, 1 to 3, of the settings.
fn entries_for(settings: Settings) -> Result<usize, Refusal>
    ensures counted { number_says result ≡ entries_for (asked settings) }
    ensures few { IfOk result (λ n. n ≤ 1024) }
{
    accepted(settings)?;
    Ok(entries_of(settings))
}

// Writes the fresh directory of settings over whatever was there; a refusal, 1 to 4, changes no word.
pub fn form(settings: Settings, words: &mut [u32]) -> Result<(), Refusal>
    ensures { FormedAs (asked settings) words.old result words.new }
{
    let entries = entries_for(settings)?;
    if words.len() != length_for(entries) {
        return Err(Refusal::WrongLength);
    }
    form_fresh(words, settings, entries as u32, bits_of(entries) as u32);
    Ok(())
}

// The length of the words that `form` asks for settings, or the refusal, 1 to 3, that it gives to them.
pub fn words_for(settings: Settings) -> Result<u32, Refusal>
    ensures { LongAs (asked settings) result }
{
    Ok(length_for(entries_for(settings)?) as u32)
}
