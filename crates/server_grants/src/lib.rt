// Answering a RENEW with a GRANT, an OFFER (01, "Messages received") or a BATCH (02, A6): each updates the tables and sends its message.
#![tactic(auto)]

ghost use Rattle.std.specs.Prelude.{◌≡◌, true, ◌≤◌, ◌<◌};
ghost use Rattle.protocol.specs.Setup.{in_range};
ghost use Rattle.protocol.specs.Server.{sent, offered, offering, batched, batching, granted};
ghost use Rattle.protocol.specs.Sound.{clock_limit};
ghost use Rattle.state_words.specs.View.{tables_of, records_of};
ghost use Rattle.setup.specs.Limits.{CLIENTS, VOLUMES};

use lease_tests::place;
use network_send::push;
use protocol::setup::Setup;
use server_replies::Renew;
use setup::limits::{SLOTS, VOLUMES};
use state_words::{Values, Words, network, server};

// Answers with an OFFER, since the client has to drop its leases first: "mark unreachable, offer number := number, send OFFER".
pub fn offer(words: &mut Words, values: &mut Values, client: usize, volume: usize, number: u32)
    requires client_bound { client < CLIENTS }
    requires volume_bound { volume < VOLUMES }
    ensures values_after { tables_of words.new values.new ≡ sent (offered (tables_of words.old values.old) client volume number) (offering (tables_of words.old values.old) client volume number) }
    ensures values_unchanged { records_of words.new values.new ≡ records_of words.old values.old }
{
    let message = server_replies::offering(&*words, client, volume, number);
    server_marks::mark(&mut *words, client, volume);
    words[server::OFFER + (client * VOLUMES + volume)] = number;
    push(&mut *words, &mut *values, message);
}

// Answers with a BATCH (02, A6): "Its RENEW there, after the epoch rule, is answered by BATCH". The batch last sent is then this RENEW's.
pub fn batch(words: &mut Words, values: &mut Values, client: usize, volume: usize, number: u32)
    requires client_bound { client < CLIENTS }
    requires volume_bound { volume < VOLUMES }
    ensures values_after { tables_of words.new values.new ≡ sent (batched (tables_of words.old values.old) client volume number) (batching (tables_of words.old values.old) client volume number) }
    ensures values_unchanged { records_of words.new values.new ≡ records_of words.old values.old }
{
    let message = server_replies::batching(&*words, client, volume, number);
    words[server::BATCH + (client * VOLUMES + volume)] = number;
    push(&mut *words, &mut *values, message);
}

// Renews both leases and answers with a GRANT: "volume expiry and VE := clock + tv, object expiry and OE := clock + t, send GRANT".
pub fn grant(setup: Setup, words: &mut Words, values: &mut Values, renew: Renew)
    requires setup_value { in_range setup ≡ true }
    requires values_bound { (tables_of words.old values.old).clock ≤ clock_limit }
    requires client_bound { renew.client < CLIENTS }
    requires object_lt_objects { renew.object < setup.objects }
    ensures values_after { tables_of words.new values.new ≡ granted setup (tables_of words.old values.old) renew.client renew.object renew.number renew.held }
    ensures values_unchanged { records_of words.new values.new ≡ records_of words.old values.old }
{
    let volume = place::volume_of(setup, renew.object);
    let message = server_replies::granting(setup, &*words, &*values, renew);
    let volume_expiry = words[network::CLOCK] + setup.tv;
    let object_expiry = words[network::CLOCK] + setup.t;
    words[server::VOLUME_EXPIRY + volume] = volume_expiry;
    words[server::SESSION_EXPIRY + (renew.client * VOLUMES + volume)] = volume_expiry;
    words[server::OBJECT_EXPIRY + renew.object] = object_expiry;
    words[server::LEASE + (renew.client * SLOTS + renew.object)] = object_expiry;
    push(&mut *words, &mut *values, message);
}
