// Receives a message at a client: stores what it learns of the volume and sends its reply in the words, and returns the change to its records.
ghost use Rattle.std.specs.Prelude.{◌≡◌, true, ◌<◌};
ghost use Rattle.protocol.specs.declared.step.CopyChange.TheVariants as copy;
ghost use Rattle.protocol.specs.declared.step.Turn.TheVariants as turn;
ghost use Rattle.protocol.specs.Setup.{in_range};
ghost use Rattle.protocol.specs.Decide.{by_client, invalidate_received, offer_received, batch_received};
ghost use Rattle.state_words.specs.View.{tables_of, records_of};
ghost use Rattle.client_receive.specs.Views.{grant_heard};
ghost use Rattle.setup.specs.Limits.{CLIENTS, VOLUMES};

use crate::view;
use client_cache::{change, request};
use lease_tests::place;
use network_send::push;
use protocol::message::{Kind, Message};
use protocol::records::{Copy, Request};
use protocol::setup::Setup;
use protocol::step::{Change, CopyChange, Sweep, Turn};
use state_words::{Values, Words};

// Holds the fields of a GRANT other than client and object.
// Kept: a struct of its own, since `grant` has eight parameters with it.
#[derive(Clone, Copy)]
pub struct Terms {
    pub number: u32,
    pub volume_expiry: u32,
    pub epoch: u32,
    pub version: u32,
    pub object_expiry: u32,
    pub payload: Option<u64>,
}

// GRANT: "needs the standing number, else nothing", and then "store its fields, epoch too, and end the request".
#[tactic(auto, unfolding(protocol::specs::Decide::grant_received))]
pub fn grant(
    setup: Setup,
    words: &mut Words,
    values: &Values,
    c: Copy,
    r: Request,
    client: u8,
    object: u8,
    g: Terms,
) -> Change
    requires setup_value { in_range setup ≡ true }
    requires client_lt_clients { client < setup.clients }
    requires object_lt_objects { object < setup.objects }
    ensures values_after { by_client result (tables_of words.new values.now) ≡ grant_heard setup (tables_of words.old values.now) c r client object g }
    ensures values_unchanged { records_of words.new values.now ≡ records_of words.old values.now }
{
    if !request::stands(r, g.number) {
        return change::unchanged();
    }
    let volume = place::volume_of(setup, object as usize);
    view::put(words, client as usize, volume, g.epoch, g.volume_expiry);
    change::store_grant(c, g.version, g.object_expiry, g.payload)
}

// INVALIDATE: "erase the copy, forget a standing request for that object, send ACK with the same epoch and new version".
#[tactic(auto, unfolding(protocol::specs::Decide::invalidate_received))]
pub fn invalidate(
    words: &mut Words,
    values: &mut Values,
    r: Request,
    client: u8,
    object: u8,
    epoch: u32,
    version: u32,
) -> Change
    ensures values_after { by_client result (tables_of words.new values.new) ≡ invalidate_received (tables_of words.old values.old) r client object epoch version }
    ensures values_unchanged { records_of words.new values.new ≡ records_of words.old values.old }
{
    let kind = Kind::Ack {
        object,
        epoch,
        version,
    };
    push(words, values, Message { client, kind });
    Change {
        copy: CopyChange::Erase,
        request: request::forget(r, object),
        sweep: Sweep::Keep,
    }
}

// Returns the change that ends the request and sweeps the client's copies.
fn swept(sweep: Sweep) -> Change
    ensures { result ≡ record { copy = copy.Keep; request = turn.End; sweep = sweep } }
{
    Change {
        copy: CopyChange::Keep,
        request: Turn::End,
        sweep,
    }
}

// OFFER: "needs the standing number, else nothing. Take its epoch, set that volume's expiry and all its object expiries to 0, end the request,
// send DROPPED with that number and epoch."
#[tactic(auto, unfolding(protocol::specs::Decide::offer_received))]
pub fn offer(
    words: &mut Words,
    values: &mut Values,
    r: Request,
    client: u8,
    volume: u8,
    number: u32,
    epoch: u32,
) -> Change
    requires client_bound { client < CLIENTS }
    requires volume_bound { volume < VOLUMES }
    ensures values_after { by_client result (tables_of words.new values.new) ≡ offer_received (tables_of words.old values.old) r client volume number epoch }
    ensures values_unchanged { records_of words.new values.new ≡ records_of words.old values.old }
{
    if !request::stands(r, number) {
        return change::unchanged();
    }
    view::put(words, client as usize, volume as usize, epoch, 0);
    let kind = Kind::Dropped {
        volume,
        number,
        epoch,
    };
    push(words, values, Message { client, kind });
    swept(Sweep::Expire(volume))
}

// BATCH (02, A6): "With that number standing the dash erases those copies, ends the request and sends CLEARED (kind 8) with number, epoch and set".
#[tactic(auto, unfolding(protocol::specs::Decide::batch_received))]
pub fn batch(
    words: &mut Words,
    values: &mut Values,
    r: Request,
    client: u8,
    volume: u8,
    number: u32,
    epoch: u32,
    set: u32,
) -> Change
    ensures values_after { by_client result (tables_of words.new values.new) ≡ batch_received (tables_of words.old values.old) r client volume number epoch set }
    ensures values_unchanged { records_of words.new values.new ≡ records_of words.old values.old }
{
    if !request::stands(r, number) {
        return change::unchanged();
    }
    let kind = Kind::Cleared {
        volume,
        number,
        epoch,
        set,
    };
    push(words, values, Message { client, kind });
    swept(Sweep::Forget(set))
}
