// Applies a plan's act to the states in the words and values.
ghost use Rattle.step_saved.specs.Applied.{Fits, Applied};

use crate::plan::Act;
use state_words::saved::{SavedValues, SavedWords};
use state_words::{Values, Words};

// Saves the words and values, restores them, or without an act leaves all as it is.
pub fn apply(
    words: &mut Words,
    values: &mut Values,
    saved: &mut SavedWords,
    saved_values: &mut SavedValues,
    act: Option<Act>,
)
    requires { Fits act }
    ensures { Applied act words.old values.old saved.old saved_values.old words.new values.new saved.new saved_values.new }
{
    match act {
        None => {}
        Some(Act::Save(name)) => {
            saved_states::save(&*words, &*values, &mut *saved, &mut *saved_values, name);
        }
        Some(Act::Return(name)) => {
            saved_states::restore(&mut *words, &mut *values, &*saved, &*saved_values, name);
        }
    }
}
