// Moves the records that a caller lends to the words and back, copies and requests alike.
ghost use Rattle.std.specs.Prelude.{◌≡◌, ℕ, List, get_or, set};
ghost use Rattle.laws.specs.Overlay.{overlay};
ghost use Rattle.client_transfer.specs.Rest.{KeepsRest};

use client_lent::list::{look, store};
use state_words::Words;

// A client's record as it lies in the words. A copy has its value in the values beside them; a request lies in the words alone.
pub trait Record: Copy + Drop {
    // The values that the record's kind needs, or `()`.
    type Values;

    ghost none: { Self };

    // The records that lie there.
    ghost lying: { List ℕ → Self.Values → List Self };

    // That all else is as it was.
    ghost Same: { List ℕ → Self.Values → List ℕ → Self.Values → Type 0 };

    ghost laws: { KeepsRest Same };

    // Returns what a place without a record reads as.
    fn missing() -> Self
        ensures { result ≡ none };

    // Stores the record at place k, or does nothing if k is past the last place.
    fn keep(self, words: &mut Words, values: &mut Self::Values, k: usize)
        ensures stored { lying words.new values.new ≡ set (lying words.old values.old) k self }
        ensures rest { Same words.old values.old words.new values.new };

    // Returns the record at place k; places past the last one read as no record.
    fn kept(words: &Words, values: &Self::Values, k: usize) -> Self
        ensures { result ≡ get_or (lying words.now values.now) k none };
}

// Stores the first n lent records in the words and values; n = 0 leaves them as they are.
pub fn to_words<R: Record>(records: &[R], words: &mut Words, values: &mut R::Values, n: usize)
    ensures stored { R.lying words.new values.new ≡ overlay R.none (R.lying words.old values.old) records.now n }
    ensures rest { R.Same words.old values.old words.new values.new }
    ensures unchanged { n ≡ 0 → (words.new ≡ words.old) × (values.new ≡ values.old) }
{
    for k in 0..n {
        look(records, k, R::missing()).keep(words, values, k);
    }
}

// Loads the first n lent records from the words and values.
pub fn from_words<R: Record>(records: &mut [R], words: &Words, values: &R::Values, n: usize)
    ensures { records.new ≡ overlay R.none records.old (R.lying words.now values.now) n }
{
    for k in 0..n {
        store(records, k, R::kept(words, values, k));
    }
}
