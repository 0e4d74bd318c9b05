// Question 1 for the saved states (02, A7).
ghost use Rattle.std.specs.Prelude.{ℕ, ◌≤◌, ◌≡◌, get_or};
ghost use Rattle.laws.specs.Loop.{all_from};
ghost use Rattle.protocol.specs.Saved.{world_sound, sound_under};
ghost use Rattle.protocol.specs.Sound.{time_fits, request_sound};
ghost use Rattle.protocol.specs.Tables.{no_copy, no_request};
ghost use Rattle.setup.specs.Limits.{CLIENTS};
ghost use Rattle.state_words.specs.Fields.{CLIENT_OBJECTS};
ghost use Rattle.state_words.specs.Saved.{saved_in};
ghost use Rattle.state_words.specs.View.{records_of, requests_of, world_of};
ghost use Rattle.step_saved.specs.Sound.{all_sound};

use crate::plan::all_copies;
use client_records::copies::copy_at;
use client_records::requests::request_at;
use gate_records::copies::copy_sound;
use gate_records::requests::request_sound;
use gate_tables::tables::tables_sound;
use protocol::setup::Setup;
use state_words::saved::{NAMES, SAVED, SavedValues, SavedWords};
use state_words::{Values, Words};

// Returns whether the expiries of the first n copies are in range.
// Kept: a `for` with `&=` in place of `all`, which leaves the loop at the first "no", so it is not compiled to vector instructions: in gate_tables six
// instructions an item in place of about two.
fn copies_fit<'a>(words: &'a Words, values: &'a Values, n: usize) -> bool
    requires { n ≤ CLIENT_OBJECTS }
    ensures { result ≡ all_from (λ (k : ℕ). time_fits (get_or (records_of words.now values.now).copies k no_copy).expiry) 0 n }
{
    let mut ok = true;
    for k in 0..n {
        ok &= copy_sound(copy_at(words, values, k));
    }
    ok
}

// Returns whether the first n requests are sound.
fn requests_fit(setup: Setup, words: &Words, n: usize) -> bool
    requires { n ≤ CLIENTS }
    ensures { result ≡ all_from (λ (d : ℕ). request_sound setup (get_or (requests_of words.now) d no_request)) 0 n }
{
    (0..n).all(|client| request_sound(setup, request_at(words, client)))
}

// Returns whether the setup is in range and the tables, messages and records in the words and values are sound.
fn state_sound<'a>(setup: Setup, words: &'a Words, values: &'a Values) -> bool
    ensures { result ≡ world_sound setup (world_of setup words.now values.now) }
{
    if setup::in_range(setup) {
        let copies = copies_fit(words, values, all_copies(setup));
        let requests = requests_fit(setup, words, setup.clients as usize);
        let tables = tables_sound(setup, words, values);
        return copies & requests & tables;
    }
    false
}

// Returns whether these words and values are sound, or no state was saved in them.
fn saved_sound<'a>(setup: Setup, words: &'a Words, values: &'a Values) -> bool
    ensures { result ≡ sound_under setup (saved_in setup words.now values.now) }
{
    if words[SAVED] != 0 {
        return state_sound(setup, words, values);
    }
    true
}

// Returns whether every state that was saved is sound: "A saved state must be sound too, else 1."
pub fn all<'a>(setup: Setup, saved: &'a SavedWords, saved_values: &'a SavedValues) -> bool
    ensures { result ≡ all_sound setup saved.now saved_values.now }
{
    (0..NAMES).all(|name| saved_sound(setup, &saved[name], &saved_values[name]))
}
