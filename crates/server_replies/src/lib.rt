// Building the replies to a RENEW (01, "Messages received"), and finding the object whose INVALIDATE is resent.
#![tactic(auto)]

pub mod lowest;

ghost use Rattle.std.specs.Prelude.{◌≡◌, true, ◌≤◌, ◌<◌};
ghost use Rattle.protocol.specs.Setup.{in_range};
ghost use Rattle.protocol.specs.Tables.{version_at};
ghost use Rattle.protocol.specs.Writes.{invalidation};
ghost use Rattle.protocol.specs.Server.{offering, batching, payload_for, granting};
ghost use Rattle.protocol.specs.Sound.{clock_limit};
ghost use Rattle.setup.specs.Limits.{largest, CLIENTS, SLOTS, VOLUMES};
ghost use Rattle.state_words.specs.View.{tables_of, numbers_of};

use lease_tests::place;
use protocol::message::{Kind, Message};
use protocol::setup::Setup;
use server_write::invalidates;
use setup::limits::VOLUMES;
use state_words::{Values, Words, network, server};

// What a client's RENEW asks: a lease on an object. `epoch` is the one that the client knows, `held` the version that it holds.
#[derive(Clone, Copy)]
pub struct Renew {
    pub client: usize,
    pub object: usize,
    pub number: u32,
    pub epoch: u32,
    pub held: u32,
}

// Kept: `offering` and `batching` share the client, the number and the epoch; the fields that differ would make one function for both no shorter.

// Returns the OFFER, with the volume's epoch: "send OFFER". Like the GRANT it repeats the RENEW's number: "replies repeat a request number".
pub fn offering(words: &Words, client: usize, volume: usize, number: u32) -> Message
    requires client_bound { client < CLIENTS }
    requires volume_bound { volume < VOLUMES }
    ensures { result ≡ offering (numbers_of words.now) client volume number }
{
    Message {
        client: client as u8,
        kind: Kind::Offer {
            volume: volume as u8,
            number,
            epoch: words[server::VOLUME_EPOCH + volume],
        },
    }
}

// Returns the BATCH (02, A6): "answered by BATCH (kind 7) with number, epoch and the noted set".
pub fn batching(words: &Words, client: usize, volume: usize, number: u32) -> Message
    requires client_bound { client < CLIENTS }
    requires volume_bound { volume < VOLUMES }
    ensures { result ≡ batching (numbers_of words.now) client volume number }
{
    Message {
        client: client as u8,
        kind: Kind::Batch {
            volume: volume as u8,
            number,
            epoch: words[server::VOLUME_EPOCH + volume],
            set: words[server::NOTES + (client * VOLUMES + volume)],
        },
    }
}

// Returns the INVALIDATE for the standing write of an object, with its epoch and new version: "resend INVALIDATE".
pub fn resending(setup: Setup, words: &Words, client: usize, object: usize) -> Message
    requires setup_value { in_range setup ≡ true }
    requires client_bound { client < CLIENTS }
    requires object_lt_objects { object < setup.objects }
    requires object_bound { version_at (numbers_of words.now) object < largest }
    ensures { result ≡ invalidation setup (numbers_of words.now) object client }
{
    Message {
        client: client as u8,
        kind: invalidates::invalidation(setup, words, object),
    }
}

// Returns the object's value, or none if the client holds this version already: "with value unless versions are equal".
fn payload<'a>(words: &'a Words, values: &'a Values, object: usize, held: u32) -> Option<u64>
    requires { object < SLOTS }
    ensures { result ≡ payload_for (tables_of words.now values.now) object held }
{
    if words[server::VERSION + object] == held {
        None
    } else {
        Some(values[server::VALUE + object])
    }
}

// Returns the GRANT, with the RENEW's number ("replies repeat a request number") and the new expiry of each lease: "send GRANT".
pub fn granting<'a>(setup: Setup, words: &'a Words, values: &'a Values, renew: Renew) -> Message
    requires setup_value { in_range setup ≡ true }
    requires values_bound { (tables_of words.now values.now).clock ≤ clock_limit }
    requires client_bound { renew.client < CLIENTS }
    requires object_lt_objects { renew.object < setup.objects }
    ensures { result ≡ granting setup (tables_of words.now values.now) renew.client renew.object renew.number renew.held }
{
    let object = renew.object;
    let volume = place::volume_of(setup, object);
    let payload = payload(words, values, object, renew.held);
    Message {
        client: renew.client as u8,
        kind: Kind::Grant {
            object: object as u8,
            number: renew.number,
            volume_expiry: words[network::CLOCK] + setup.tv,
            epoch: words[server::VOLUME_EPOCH + volume],
            version: words[server::VERSION + object],
            object_expiry: words[network::CLOCK] + setup.t,
            payload,
        },
    }
}
