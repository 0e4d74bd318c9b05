// Delivering a message (01, "Steps" 5). Server and client each handle the kinds that are sent to them and ignore the others.
#![tactic(auto)]

ghost use Rattle.std.specs.Prelude.{true, ◌≡◌, ◌≤◌, ◌<◌};
ghost use Rattle.protocol.specs.Setup.{in_range};
ghost use Rattle.protocol.specs.Sound.{clock_limit, kind_sound, tables_sound};
ghost use Rattle.protocol.specs.SoundLaws.{Growing};
ghost use Rattle.protocol.specs.Decide.{by_client, answered, deliver_decided};
ghost use Rattle.state_words.specs.View.{tables_of, records_of};
ghost use Rattle.step_deliver.specs.Sides.{served, heard};

use client_cache::change;
use client_receive::receive::{Terms, batch, grant, invalidate, offer};
use network_queue::list;
use network_queue::removal::remove;
use protocol::message::Kind;
use protocol::records::{Copy, Request};
use protocol::setup::Setup;
use protocol::step::{Answer, Change};
use server_ack::receive_ack;
use server_cleared::receive_cleared;
use server_dropped::receive_dropped;
use server_renew::receive::receive_renew;
use server_replies::Renew;
use state_words::{Values, Words};
use step_verdict::Verdict;

// Receives RENEW, ACK, DROPPED and CLEARED at the server ("then receive it"). Returns the number of writes completed.
fn by_server(setup: Setup, words: &mut Words, values: &mut Values, client: usize, k: Kind) -> u32
    requires setup_value { in_range setup ≡ true }
    requires values_bound { (tables_of words.old values.old).clock ≤ clock_limit }
    requires growing { Growing setup (tables_of words.old values.old).objects }
    requires client_lt_clients { client < setup.clients }
    requires k_value { kind_sound setup k ≡ true }
    ensures values_after { record { count = result; tables = tables_of words.new values.new } ≡ served setup (tables_of words.old values.old) client k }
    ensures values_unchanged { records_of words.new values.new ≡ records_of words.old values.old }
{
    match k {
        Kind::Renew {
            object,
            number,
            epoch,
            version,
        } => {
            let renew = Renew {
                client,
                object: object as usize,
                number,
                epoch,
                held: version,
            };
            receive_renew(setup, words, values, renew);
            0
        }
        Kind::Ack {
            object,
            epoch,
            version,
        } => {
            let o = object as usize;
            receive_ack(setup, words, values, client, o, epoch, version)
        }
        Kind::Dropped {
            volume,
            number,
            epoch,
        } => receive_dropped(setup, words, values, client, volume as usize, number, epoch),
        Kind::Cleared {
            volume,
            number,
            epoch,
            set,
        } => {
            let v = volume as usize;
            receive_cleared(setup, words, client, v, number, epoch, set);
            0
        }
        _ => 0,
    }
}

// Receives GRANT, INVALIDATE, OFFER and BATCH at the client ("then receive it"). Returns the change to its records.
fn by_client(
    setup: Setup,
    words: &mut Words,
    values: &mut Values,
    c: Copy,
    r: Request,
    client: u8,
    k: Kind,
) -> Change
    requires setup_value { in_range setup ≡ true }
    requires client_lt_clients { client < setup.clients }
    requires k_value { kind_sound setup k ≡ true }
    ensures values_after { by_client result (tables_of words.new values.new) ≡ heard setup (tables_of words.old values.old) c r client k }
    ensures values_unchanged { records_of words.new values.new ≡ records_of words.old values.old }
{
    match k {
        Kind::Grant {
            object,
            number,
            volume_expiry,
            epoch,
            version,
            object_expiry,
            payload,
        } => {
            let g = Terms {
                number,
                volume_expiry,
                epoch,
                version,
                object_expiry,
                payload,
            };
            grant(setup, words, &*values, c, r, client, object, g)
        }
        Kind::Invalidate {
            object,
            epoch,
            version,
        } => invalidate(words, values, r, client, object, epoch, version),
        Kind::Offer {
            volume,
            number,
            epoch,
        } => offer(words, values, r, client, volume, number, epoch),
        Kind::Batch {
            volume,
            number,
            epoch,
            set,
        } => batch(words, values, r, client, volume, number, epoch, set),
        _ => change::unchanged(),
    }
}

// Delivers the message at `place`: "remove the message, then receive it". Returns the answer and the change to the client's records.
pub fn deliver(
    setup: Setup,
    words: &mut Words,
    values: &mut Values,
    c: Copy,
    r: Request,
    place: usize,
) -> Verdict
    requires setup_value { in_range setup ≡ true }
    requires values_value { tables_sound setup (tables_of words.old values.old) ≡ true }
    requires place_bound { place < (tables_of words.old values.old).queue.len }
    ensures answer_after { answered result.change (tables_of words.new values.new) result.answer ≡ deliver_decided setup (tables_of words.old values.old) c r place }
    ensures values_unchanged { records_of words.new values.new ≡ records_of words.old values.old }
{
    let m = list::live_message(&*words, &*values, place);
    remove(&mut *words, &mut *values, place);
    let k = m.kind;
    let count = by_server(setup, &mut *words, &mut *values, m.client as usize, k);
    let change = by_client(setup, &mut *words, &mut *values, c, r, m.client, k);
    Verdict {
        change,
        answer: Answer::Delivered(m, count),
    }
}
