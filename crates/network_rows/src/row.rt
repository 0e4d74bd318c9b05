// One row of the message list: the fields of a message as nine words. Its value is kept apart, in the values.
ghost use Rattle.std.specs.Prelude.{◌≡◌, ℕ, ◌+◌, ◌*◌, ◌%◌, ◌<◌, get_or};
ghost use Rattle.laws.specs.Parts.{parts};
ghost use Rattle.laws.specs.Store.{store_each, always};
ghost use Rattle.state_words.specs.Fields.{word_lengths, value_lengths, at, MESSAGES, MESSAGE_VALUE, ROW};
ghost use Rattle.state_words.specs.Rows.{words_of, Narrow, fields_at, narrow_at};
ghost use Rattle.setup.specs.Limits.{PLACES};

use message_fields::Fields;
use state_words::{Values, Words, network};

pub type Row = [u32; network::ROW];

// Returns the lowest byte of a word.
// Kept: `n.to_le_bytes()[0]` is no plainer.
fn low(n: u32) -> u8
    ensures { result ≡ n % 256 }
{
    (n % 256) as u8
}

// Returns the row of a message with these fields. The contract adds that the first four are bytes, so that they read back the same.
// Kept: a function, since Rust takes no `From` between two types of other crates.
pub fn words_of(fields: Fields) -> Row
    ensures { (result ≡ words_of fields) × Narrow fields }
{
    [
        u32::from(fields.kind),
        u32::from(fields.client),
        u32::from(fields.object),
        u32::from(fields.present),
        fields.number,
        fields.volume_expiry,
        fields.epoch,
        fields.version,
        fields.object_expiry,
    ]
}

// Stores the nine words of a row; the caller stores the value and the length.
pub fn store(words: &mut Words, place: usize, row: Row)
    requires { place < PLACES }
    ensures { words.new ≡ store_each always (λ (k : ℕ). at MESSAGES + (place * ROW + k)) (λ (k : ℕ). get_or row k 0) words.old ROW }
{
    let start = network::MESSAGES + place * network::ROW;
    words[start..start + network::ROW].copy_from_slice(&row);
}

// Returns word k of the row at a place.
fn word(words: &Words, place: usize, k: usize) -> u32
    requires place_bound { place < PLACES }
    requires k_bound { k < ROW }
    ensures { result ≡ get_or (parts word_lengths words.now MESSAGES) (place * ROW + k) 0 }
{
    words[network::MESSAGES + (place * network::ROW + k)]
}

// Returns whether the first four words of a row (kind, client, object, value flag) fit in a byte.
pub fn narrow(words: &Words, place: usize) -> bool
    requires { place < PLACES }
    ensures { result ≡ narrow_at (parts word_lengths words.now MESSAGES) place }
{
    (0..4).all(|k| word(words, place, k) < 256)
}

// Returns the fields in a row, value included. Only the lowest byte of the first four words is read.
pub fn load(words: &Words, values: &Values, place: usize) -> Fields
    requires { place < PLACES }
    ensures { result ≡ fields_at (parts word_lengths words.now MESSAGES) (parts value_lengths values.now MESSAGE_VALUE) place }
{
    Fields {
        kind: low(word(words, place, 0)),
        client: low(word(words, place, 1)),
        object: low(word(words, place, 2)),
        present: low(word(words, place, 3)),
        number: word(words, place, 4),
        volume_expiry: word(words, place, 5),
        epoch: word(words, place, 6),
        version: word(words, place, 7),
        object_expiry: word(words, place, 8),
        value: values[network::MESSAGE_VALUE + place],
    }
}
