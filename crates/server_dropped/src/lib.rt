// DROPPED received at the server (01, "Messages received").
#![tactic(auto)]

ghost use Rattle.std.specs.Prelude.{◌≡◌, true, ℕ, ◌+◌, ◌<◌};
ghost use Rattle.laws.specs.Sets.{removed};
ghost use Rattle.laws.specs.Store.{store_each};
ghost use Rattle.protocol.specs.Setup.{in_range};
ghost use Rattle.protocol.specs.SoundLaws.{Growing};
ghost use Rattle.protocol.specs.Writes.{settled};
ghost use Rattle.protocol.specs.Server.{of_volume, drop_taken, drop_staged};
ghost use Rattle.state_words.specs.Fields.{at, WAITING};
ghost use Rattle.state_words.specs.View.{tables_of, numbers_of, records_of};
ghost use Rattle.server_waiting.specs.Waiting.{awaited_in};
ghost use Rattle.setup.specs.Limits.{CLIENTS, VOLUMES};

use lease_tests::place;
use protocol::setup::Setup;
use server_complete::settle;
use server_due::Trigger;
use setup::limits::VOLUMES;
use state_words::{Values, Words, server};

// Takes the client out of those that the writes in the volume wait for: "Clear .. waiting there".
fn stop_waiting(setup: Setup, words: &mut Words, client: usize, volume: usize)
    requires setup_value { in_range setup ≡ true }
    requires client_lt_clients { client < setup.clients }
    ensures { words.new ≡ store_each (of_volume setup volume) (λ (o : ℕ). at WAITING + o) (λ (o : ℕ). removed (awaited_in words.old o) client) words.old setup.objects }
{
    for object in 0..setup.objects as usize {
        if place::volume_of(setup, object) == volume {
            let i = server::WAITING + object;
            words[i] = sets::without(words[i], client);
        }
    }
}

// Kept: `drop_taken`, and `clear_taken` of CLEARED: one function for both would take the field as a parameter, with a bound on it, and be no shorter.

// Returns whether the DROPPED counts: it "needs the epoch and a nonzero equal offer number".
fn drop_taken(words: &Words, client: usize, volume: usize, number: u32, epoch: u32) -> bool
    requires client_bound { client < CLIENTS }
    requires volume_bound { volume < VOLUMES }
    ensures { result ≡ drop_taken (numbers_of words.now) client volume number epoch }
{
    let offer = words[server::OFFER + (client * VOLUMES + volume)];
    (epoch == words[server::VOLUME_EPOCH + volume]) & ((number != 0) & (number == offer))
}

// Receives a client's DROPPED for a volume: "Clear the dash's leases in the volume, mark, offer and waiting there; then, in object order, complete each
// standing write of the volume on ACK's condition." A DROPPED that does not count changes nothing. Returns the number of writes completed.
// Kept: seven parameters, since nothing else is handed these fields: a struct of them would be taken apart at once.
pub fn receive_dropped(
    setup: Setup,
    words: &mut Words,
    values: &mut Values,
    client: usize,
    volume: usize,
    number: u32,
    epoch: u32,
) -> u32
    requires setup_value { in_range setup ≡ true }
    requires growing { Growing setup (tables_of words.old values.old).objects }
    requires client_lt_clients { client < setup.clients }
    requires volume_lt_volumes { volume < setup.volumes }
    ensures values_after { record { count = result; tables = tables_of words.new values.new } ≡ settled setup (drop_staged setup (tables_of words.old values.old) client volume number epoch) }
    ensures values_unchanged { records_of words.new values.new ≡ records_of words.old values.old }
{
    if drop_taken(&*words, client, volume, number, epoch) {
        words[server::SESSION_EXPIRY + (client * VOLUMES + volume)] = 0;
        words[server::UNREACHABLE + (client * VOLUMES + volume)] = 0;
        words[server::OFFER + (client * VOLUMES + volume)] = 0;
        let objects = setup.objects as usize;
        server_leases::clear(&mut *words, client, objects, |object| {
            place::volume_of(setup, object) == volume
        });
        stop_waiting(setup, &mut *words, client, volume);
        settle::settle(setup, Trigger::Volume(volume), &mut *words, &mut *values)
    } else {
        0
    }
}
