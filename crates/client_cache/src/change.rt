// How a client's records change.
ghost use Rattle.std.specs.Prelude.{◌≡◌};
ghost use Rattle.protocol.specs.Client.{grant_stored};
ghost use Rattle.protocol.specs.Decide.{kept};

use protocol::records::Copy;
use protocol::step::{Change, CopyChange, Sweep, Turn};

// Returns the change that a GRANT makes: "store its fields .. and end the request". 02, A4: "A GRANT without a value now always stores its other fields", and
// "A GRANT without a value .. keeps the value held."
pub fn store_grant(c: Copy, version: u32, expiry: u32, payload: Option<u64>) -> Change
    ensures { result ≡ grant_stored c version expiry payload }
{
    let stored = Copy {
        version,
        value: payload.unwrap_or(c.value),
        expiry,
    };
    Change {
        copy: CopyChange::Fill(stored),
        request: Turn::End,
        sweep: Sweep::Keep,
    }
}

// Returns the change that leaves all records of a client as they are.
pub fn unchanged() -> Change
    ensures { result ≡ kept }
{
    Change {
        copy: CopyChange::Keep,
        request: Turn::Keep,
        sweep: Sweep::Keep,
    }
}
