// A test case: its setup and the number of records it lends, the text it is read from (`text`), the states it is performed on (`states`), and the changes
// that make it (`change`).
#![tactic(auto)]

pub mod change;
pub mod states;
pub mod text;

ghost use Rattle.std.specs.Prelude.{◌≤◌};
ghost use Rattle.setup.specs.Limits.{CLIENTS};
ghost use Rattle.state_words.specs.Fields.{CLIENT_OBJECTS};

use protocol::setup::Setup;
use setup::limits::CLIENTS;
use state_words::CLIENT_OBJECTS;

// What a step gets besides the words and values. The words hold the client records too; the first `copies` and `requests` of them are lent.
#[derive(Clone, Copy)]
pub struct Case {
    pub setup: Setup,
    pub copies: usize,
    pub requests: usize,
}

// Returns the number of copies that the case lends, at most all that the words hold.
pub fn copies_lent(case: Case) -> usize
    ensures { result ≤ CLIENT_OBJECTS }
{
    case.copies.min(CLIENT_OBJECTS)
}

// Returns the number of requests that the case lends, at most one for each client.
pub fn requests_lent(case: Case) -> usize
    ensures { result ≤ CLIENTS }
{
    case.requests.min(CLIENTS)
}
