// The rules for answering a RENEW, in order (01, "Messages received").
ghost use Rattle.std.specs.Prelude.{◌≡◌, true, ◌≤◌, ◌<◌};
ghost use Rattle.protocol.specs.Setup.{in_range};
ghost use Rattle.protocol.specs.SoundLaws.{Growing};
ghost use Rattle.protocol.specs.Server.{must_drop, renewed_by};
ghost use Rattle.protocol.specs.Sound.{clock_limit};
ghost use Rattle.state_words.specs.View.{tables_of, numbers_of, records_of};
ghost use Rattle.setup.specs.Limits.{CLIENTS, VOLUMES};

use lease_tests::place;
use network_send::push;
use protocol::setup::Setup;
use server_grants::{batch, grant, offer};
use server_replies::{Renew, lowest};
use setup::limits::VOLUMES;
use state_words::{Values, Words, server};

// Returns whether the client has to drop its leases first: "Epoch differs or dash unreachable".
fn must_drop(words: &Words, client: usize, volume: usize, epoch: u32) -> bool
    requires client_bound { client < CLIENTS }
    requires volume_bound { volume < VOLUMES }
    ensures { result ≡ must_drop (numbers_of words.now) client volume epoch }
{
    (epoch != words[server::VOLUME_EPOCH + volume])
        | (words[server::UNREACHABLE + (client * VOLUMES + volume)] != 0)
}

// Answers a RENEW whose number is new: "take the first rule that fits". 02, A6: "No volume lease is given while notes remain." Sends nothing where "This
// object has a standing write".
pub fn renew_by(setup: Setup, words: &mut Words, values: &mut Values, renew: Renew)
    requires setup_value { in_range setup ≡ true }
    requires values_bound { (tables_of words.old values.old).clock ≤ clock_limit }
    requires growing { Growing setup (tables_of words.old values.old).objects }
    requires client_lt_clients { renew.client < setup.clients }
    requires object_lt_objects { renew.object < setup.objects }
    ensures values_after { tables_of words.new values.new ≡ renewed_by setup (tables_of words.old values.old) renew.client renew.object renew.number renew.epoch renew.held }
    ensures values_unchanged { records_of words.new values.new ≡ records_of words.old values.old }
{
    let client = renew.client;
    let volume = place::volume_of(setup, renew.object);
    if must_drop(&*words, client, volume, renew.epoch) {
        offer(&mut *words, &mut *values, client, volume, renew.number);
    } else if words[server::NOTES + (client * VOLUMES + volume)] != 0 {
        batch(&mut *words, &mut *values, client, volume, renew.number);
    } else if let Some(low) = lowest::lowest_waited(setup, &*words, client, volume) {
        let message = server_replies::resending(setup, &*words, client, low);
        push(&mut *words, &mut *values, message);
    } else if words[server::STANDING + renew.object] == 0 {
        grant(setup, &mut *words, &mut *values, renew);
    }
}
