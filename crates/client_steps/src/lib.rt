// Performs a client's own steps: read, ask and restart (01, "Steps" 2, 3 and 9).
#![tactic(auto)]

ghost use Rattle.std.specs.Prelude.{◌≡◌, true, ◌<◌};
ghost use Rattle.protocol.specs.Setup.{in_range};
ghost use Rattle.protocol.specs.Decide.{read_decided, ask_decided, restart_decided};
ghost use Rattle.state_words.specs.View.{tables_of, numbers_of, records_of};

use client_cache::copy;
use lease_tests::place;
use network_send::push;
use protocol::message::{Kind, Message};
use protocol::records::{Copy, Request};
use protocol::setup::Setup;
use protocol::step::Answer;
use setup::limits::VOLUMES;
use state_words::{Values, Words, client, network, pass};

// Step 2: "shown with its value; else "ask first"". Changes no table and no record.
pub fn read(setup: Setup, words: &Words, c: Copy, client: u8, object: u8) -> Answer
    requires setup_value { in_range setup ≡ true }
    requires client_lt_clients { client < setup.clients }
    requires object_lt_objects { object < setup.objects }
    ensures { result ≡ (read_decided setup (numbers_of words.now) c client object).outcome.answer }
{
    let volume = place::volume_of(setup, object as usize);
    let clock = words[network::CLOCK];
    let expiry = words[client::VIEW_EXPIRY + (client as usize * VOLUMES + volume)];
    if copy::showable(clock, expiry, c) {
        Answer::Shown(c.value)
    } else {
        Answer::AskFirst
    }
}

// Step 3: "send RENEW with number, known epoch and held version"; "RENEW's epoch is the known one, its version the held one".
// `client_cache::request::number` takes the number.
pub fn ask(
    setup: Setup,
    words: &mut Words,
    values: &mut Values,
    c: Copy,
    r: Request,
    client: u8,
    object: u8,
)
    requires setup_value { in_range setup ≡ true }
    requires client_lt_clients { client < setup.clients }
    requires object_lt_objects { object < setup.objects }
    ensures values_after { tables_of words.new values.new ≡ (ask_decided setup (tables_of words.old values.old) c r client object).outcome.tables }
    ensures values_unchanged { records_of words.new values.new ≡ records_of words.old values.old }
{
    let volume = place::volume_of(setup, object as usize);
    let epoch = words[client::VIEW_EPOCH + (client as usize * VOLUMES + volume)];
    let kind = Kind::Renew {
        object,
        number: r.next,
        epoch,
        version: c.version,
    };
    push(words, values, Message { client, kind });
}

// Step 9: "only its next request number remains". Clears what the client knows of each volume. Only the contract needs the values.
pub fn restart(setup: Setup, words: &mut Words, values: &Values, client: u8)
    requires setup_value { in_range setup ≡ true }
    requires client_lt_clients { client < setup.clients }
    ensures values_after { tables_of words.new values.now ≡ (restart_decided setup (tables_of words.old values.now) client).outcome.tables }
    ensures values_unchanged { records_of words.new values.now ≡ records_of words.old values.now }
{
    let n = setup.volumes as usize;
    let first = client as usize * VOLUMES;
    pass::fill(words, client::VIEW_EPOCH + first, n, 0);
    pass::fill(words, client::VIEW_EXPIRY + first, n, 0);
}
