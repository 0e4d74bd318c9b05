ghost use Rattle.std.specs.Prelude.{◌≡◌, ◌<◌, get_or};
ghost use Rattle.protocol.specs.Tables.{no_request};
ghost use Rattle.state_words.specs.View.{requests_of};
ghost use Rattle.client_records.specs.Stores.{RequestPut};
ghost use Rattle.setup.specs.Limits.{CLIENTS};

use protocol::records::Request;
use state_words::{Words, client as fields};

// Returns a client's request. Any nonzero word is a set flag; only the lowest byte of the object counts.
// Kept: `(word % 256) as u8` for the low byte, of which the library has no plainer form.
#[tactic(auto, using(crate::proofs::Reading::request_read))]
pub fn request_at(words: &Words, client: usize) -> Request
    requires { client < CLIENTS }
    ensures { result ≡ get_or (requests_of words.now) client no_request }
{
    Request {
        next: words[fields::REQUEST_NEXT + client],
        standing: words[fields::REQUEST_STANDING + client] != 0,
        number: words[fields::REQUEST_NUMBER + client],
        object: (words[fields::REQUEST_OBJECT + client] % 256) as u8,
    }
}

// Stores a client's request.
pub fn put_request(words: &mut Words, client: usize, r: Request)
    requires { client < CLIENTS }
    ensures { RequestPut words.old words.new client r }
{
    words[fields::REQUEST_NEXT + client] = r.next;
    words[fields::REQUEST_STANDING + client] = u32::from(r.standing);
    words[fields::REQUEST_NUMBER + client] = r.number;
    words[fields::REQUEST_OBJECT + client] = u32::from(r.object);
}
