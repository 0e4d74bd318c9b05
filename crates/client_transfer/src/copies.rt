ghost use Rattle.std.specs.Prelude.{◌≡◌, get_or, set};
ghost use Rattle.laws.specs.Overlay.{overlay};
ghost use Rattle.protocol.specs.Tables.{no_copy};
ghost use Rattle.state_words.specs.View.{tables_of, records_of};
ghost use Rattle.client_records.specs.Stores.{with_copies};
ghost use Rattle.client_transfer.specs.Rest.{SameButCopies, copies_keep};

use crate::record::{self, Record};
use client_records::copies;
use protocol::records::Copy;
use setup::fresh::fresh_copy;
use state_words::{CLIENT_OBJECTS, Values, Words};

impl Record for Copy {
    type Values = Values;

    ghost none = { no_copy };

    ghost lying = { λ w x. (records_of w x).copies };

    ghost Same = { SameButCopies };

    ghost laws = { copies_keep };

    fn missing() -> Copy {
        fresh_copy()
    }

    #[tactic(auto, using(crate::proofs::Laws::no_copy_kept))]
    fn keep(self, words: &mut Words, values: &mut Values, k: usize) {
        if k < CLIENT_OBJECTS {
            copies::put_copy(words, values, k, self);
        }
    }

    #[tactic(auto, using(crate::proofs::Laws::no_copy_there))]
    fn kept(words: &Words, values: &Values, k: usize) -> Copy {
        if k < CLIENT_OBJECTS {
            copies::copy_at(words, values, k)
        } else {
            fresh_copy()
        }
    }
}

// Stores the first n lent copies in the words; n = 0 leaves every word as it is.
#[tactic(auto, using(crate::proofs::Laws::copies_replaced))]
pub fn to_words(copies: &[Copy], words: &mut Words, values: &mut Values, n: usize)
    ensures values_unchanged { tables_of words.new values.new ≡ tables_of words.old values.old }
    ensures values_after { records_of words.new values.new ≡ with_copies (records_of words.old values.old) (overlay no_copy (records_of words.old values.old).copies copies.now n) }
    ensures words_unchanged { n ≡ 0 → (words.new ≡ words.old) × (values.new ≡ values.old) }
{
    record::to_words(copies, words, values, n);
}

// Loads the first n lent copies from the words.
pub fn from_words(copies: &mut [Copy], words: &Words, values: &Values, n: usize)
    ensures { copies.new ≡ overlay no_copy copies.old (records_of words.now values.now).copies n }
{
    record::from_words(copies, words, values, n);
}
