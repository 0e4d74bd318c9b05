ghost use Rattle.std.specs.Prelude.{◌≡◌, List, ℕ, get_or, set};
ghost use Rattle.laws.specs.Overlay.{overlay};
ghost use Rattle.protocol.specs.Tables.{no_request};
ghost use Rattle.state_words.specs.View.{tables_of, records_of, requests_of};
ghost use Rattle.client_records.specs.Stores.{with_requests};
ghost use Rattle.client_transfer.specs.Rest.{SameButRequests, requests_keep};

use crate::record::{self, Record};
use client_records::requests;
use protocol::records::Request;
use setup::fresh::no_request;
use setup::limits::CLIENTS;
use state_words::Words;

// A request lies in the words alone.
impl Record for Request {
    type Values = ();

    ghost none = { no_request };

    ghost lying = { λ w _. requests_of w };

    ghost Same = { λ w _ u _. SameButRequests w u };

    ghost laws = { requests_keep };

    fn missing() -> Request {
        no_request()
    }

    #[tactic(auto, using(crate::proofs::Laws::no_request_kept))]
    fn keep(self, words: &mut Words, _values: &mut (), k: usize) {
        if k < CLIENTS {
            requests::put_request(words, k, self);
        }
    }

    #[tactic(auto, using(crate::proofs::Laws::no_request_there))]
    fn kept(words: &Words, _values: &(), k: usize) -> Request {
        if k < CLIENTS {
            requests::request_at(words, k)
        } else {
            no_request()
        }
    }
}

// Stores the first n lent requests in the words; n = 0 leaves every word as it is.
pub fn to_words(requests: &[Request], words: &mut Words, n: usize)
    ensures by_index { (x : List ℕ) → tables_of words.new x ≡ tables_of words.old x }
    ensures by_index_2 { (x : List ℕ) → records_of words.new x ≡ with_requests (records_of words.old x) (overlay no_request (records_of words.old x).requests requests.now n) }
    ensures words_unchanged { n ≡ 0 → words.new ≡ words.old }
{
    record::to_words(requests, words, &mut (), n);
}

// Loads the first n lent requests from the words.
pub fn from_words(requests: &mut [Request], words: &Words, n: usize)
    ensures { requests.new ≡ overlay no_request requests.old (requests_of words.now) n }
{
    record::from_words(requests, words, &(), n);
}
