ghost use Rattle.std.specs.Prelude.{◌≡◌, ◌+◌, ◌<◌, ◌≤◌, get_or};
ghost use Rattle.protocol.specs.Tables.{no_copy};
ghost use Rattle.state_words.specs.View.{tables_of, records_of};
ghost use Rattle.client_records.specs.Stores.{with_copy, swept_over};
ghost use Rattle.state_words.specs.Fields.{CLIENT_OBJECTS};

use client_cache::copy;
use protocol::records::Copy;
use protocol::setup::Setup;
use protocol::step::Sweep;
use state_words::{Values, Words, client as fields};

// Returns the copy at a place of the list of all copies.
#[tactic(auto, using(crate::proofs::Reading::copy_read))]
pub fn copy_at(words: &Words, values: &Values, place: usize) -> Copy
    requires { place < CLIENT_OBJECTS }
    ensures { result ≡ get_or (records_of words.now values.now).copies place no_copy }
{
    Copy {
        version: words[fields::COPY_VERSION + place],
        value: values[fields::COPY_VALUE + place],
        expiry: words[fields::COPY_EXPIRY + place],
    }
}

// Stores a copy at a place of the list of all copies.
pub fn put_copy(words: &mut Words, values: &mut Values, place: usize, c: Copy)
    requires { place < CLIENT_OBJECTS }
    ensures values_unchanged { tables_of words.new values.new ≡ tables_of words.old values.old }
    ensures values_after { records_of words.new values.new ≡ with_copy (records_of words.old values.old) place c }
{
    words[fields::COPY_VERSION + place] = c.version;
    values[fields::COPY_VALUE + place] = c.value;
    words[fields::COPY_EXPIRY + place] = c.expiry;
}

// Sweeps n copies, beginning at `first`: sets a volume's "object expiries to 0", or erases all, since after a restart "only its next request number
// remains".
pub fn sweep(setup: Setup, words: &mut Words, values: &mut Values, g: Sweep, first: usize, n: usize)
    requires { first + n ≤ CLIENT_OBJECTS }
    ensures values_unchanged { tables_of words.new values.new ≡ tables_of words.old values.old }
    ensures values_after { records_of words.new values.new ≡ swept_over setup g first n (records_of words.old values.old) }
{
    for place in first..first + n {
        let c = copy_at(words, values, place);
        let swept = copy::sweep(setup, g, c, place - first);
        put_copy(words, values, place, swept);
    }
}
