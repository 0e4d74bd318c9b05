// Saves the state under a name and restores it (02, A7).
#![tactic(auto)]

ghost use Rattle.std.specs.Prelude.{◌<◌, [], ◌≡◌, get_or, set};
ghost use Rattle.protocol.specs.Saved.{names};
ghost use Rattle.state_words.specs.Saved.{is_saved};
ghost use Rattle.saved_states.specs.Stored.{Saves, Restores};

use state_words::saved::{SAVED, SavedValues, SavedWords};
use state_words::{Values, Words};

// Returns whether a state was saved under the name.
pub fn is_saved(saved: &SavedWords, name: usize) -> bool
    requires { name < names }
    ensures { result ≡ is_saved (get_or saved.now name []) }
{
    saved[name][SAVED] != 0
}

// Saves the values under the name.
fn save_values(values: &Values, saved_values: &mut SavedValues, name: usize)
    requires { name < names }
    ensures { saved_values.new ≡ set saved_values.old name values.now }
{
    saved_values[name] = *values;
}

// Saves the words and values under the name, in place of what was saved there.
pub fn save(
    words: &Words,
    values: &Values,
    saved: &mut SavedWords,
    saved_values: &mut SavedValues,
    name: usize,
)
    requires { name < names }
    ensures { Saves words.now values.now saved.old saved_values.old name saved.new saved_values.new }
{
    saved[name] = *words;
    saved[name][SAVED] = 1;
    save_values(&*values, &mut *saved_values, name);
}

// Restores the words and values that were saved under the name: "Returning restores all tables, messages, counters and clock exactly, but not the four
// saved states."
pub fn restore(
    words: &mut Words,
    values: &mut Values,
    saved: &SavedWords,
    saved_values: &SavedValues,
    name: usize,
)
    requires { name < names }
    ensures { Restores words.new values.new saved.now saved_values.now name }
{
    *words = saved[name];
    words[SAVED] = 0;
    *values = saved_values[name];
}
