// The notes that a write makes (02, A6): whose invalidation is put off instead of being waited for.
#![tactic(auto)]

ghost use Rattle.std.specs.Prelude.{◌≡◌, true, ◌<◌};
ghost use Rattle.protocol.specs.Setup.{in_range};
ghost use Rattle.protocol.specs.Writes.{put_off, delay_if, delayed};
ghost use Rattle.server_marks.specs.SessionWords.{sessions_of, OnlySessions};
ghost use Rattle.setup.specs.Limits.{CLIENTS, SLOTS, VOLUMES};
ghost use Rattle.state_words.specs.View.{numbers_of};

use lease_tests::{place, time};
use protocol::setup::Setup;
use setup::limits::{SLOTS, VOLUMES};
use state_words::{Words, network, server};

// Notes the object for the client: "the object goes on its list of notes for that volume"; "a later note voids that batch".
fn put_off(words: &mut Words, client: usize, volume: usize, object: usize)
    requires client_bound { client < CLIENTS }
    requires volume_bound { volume < VOLUMES }
    requires object_bound { object < SLOTS }
    ensures words_after { sessions_of words.new ≡ put_off (sessions_of words.old) client volume object }
    ensures only_sessions { OnlySessions words.old words.new }
{
    let i = client * VOLUMES + volume;
    let notes = sets::with_if(words[server::NOTES + i], object, true);
    words[server::NOTES + i] = notes;
    words[server::BATCH + i] = 0;
}

// Notes the object for the client if its invalidation is put off: "a reachable dash with a live object lease and a dead volume lease".
fn delay_one(setup: Setup, words: &mut Words, object: usize, client: usize)
    requires setup_value { in_range setup ≡ true }
    requires object_lt_objects { object < setup.objects }
    requires client_bound { client < CLIENTS }
    ensures words_after { sessions_of words.new ≡ delay_if setup (numbers_of words.old) object (sessions_of words.old) client }
    ensures only_sessions { OnlySessions words.old words.new }
{
    let volume = place::volume_of(setup, object);
    let i = client * VOLUMES + volume;
    let yes = time::delays(
        words[network::CLOCK],
        words[server::LEASE + (client * SLOTS + object)],
        words[server::UNREACHABLE + i] != 0,
        words[server::SESSION_EXPIRY + i],
    );
    if yes {
        put_off(&mut *words, client, volume, object);
    }
}

// Notes the object for each client whose invalidation is put off.
pub fn delay(setup: Setup, words: &mut Words, object: usize)
    requires setup_value { in_range setup ≡ true }
    requires object_lt_objects { object < setup.objects }
    ensures words_after { sessions_of words.new ≡ delayed setup (numbers_of words.old) object }
    ensures only_sessions { OnlySessions words.old words.new }
{
    for client in 0..setup.clients as usize {
        delay_one(setup, &mut *words, object, client);
    }
}
