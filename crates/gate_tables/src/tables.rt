// Question 1 for all tables and messages, once the setup is in range. Each loop here covers only what exists, and its body has no branch.
// Kept: a `for` with `&=` in place of `all`. `all` leaves the loop at the first "no", so it is not compiled to vector instructions: six instructions an item in
// place of about two, and sound tables ask every item.
ghost use Rattle.std.specs.Prelude.{true, ◌≡◌, ◌<◌, ◌≤◌};
ghost use Rattle.laws.specs.Loop.{all_from};
ghost use Rattle.protocol.specs.Setup.{in_range};
ghost use Rattle.protocol.specs.Sound.{volume_sound, object_sound, sessions_sound, holder_sound, holders_sound, tables_sound};
ghost use Rattle.state_words.specs.View.{tables_of, numbers_of};
ghost use Rattle.setup.specs.Limits.{CLIENTS, OBJECTS, VOLUMES};

use crate::messages;
use gate_message::object_sets::set_sound;
use protocol::setup::Setup;
use setup::limits;
use setup::limits::{SLOTS, VOLUMES};
use state_words::{Values, Words, client, network, server};

// Returns whether the first n volumes are sound: "server epochs .. at least 1", VE and guard in range ("expiries .., guards .. at most 2,148,483,647").
fn volumes_fit(words: &Words, n: usize) -> bool
    requires { n ≤ VOLUMES }
    ensures { result ≡ all_from (volume_sound (numbers_of words.now)) 0 n }
{
    let mut ok = true;
    for volume in 0..n {
        let epoch = words[server::VOLUME_EPOCH + volume];
        let volume_expiry = words[server::VOLUME_EXPIRY + volume];
        let guard = words[server::GUARD + volume];
        ok &= (1 <= epoch) & (volume_expiry <= limits::LAST_END) & (guard <= limits::LAST_END);
    }
    ok
}

// Returns whether the first n objects are sound: "versions .. at least 1", OEs and the latest ends of standing writes in range ("expiries .. and latest
// ends at most 2,148,483,647"), and "a version with a standing write below 4,294,967,295".
fn objects_fit(words: &Words, n: usize) -> bool
    requires { n ≤ OBJECTS }
    ensures { result ≡ all_from (object_sound (numbers_of words.now)) 0 n }
{
    let mut ok = true;
    for object in 0..n {
        let version = words[server::VERSION + object];
        let object_expiry = words[server::OBJECT_EXPIRY + object];
        let open = (words[server::END + object] <= limits::LAST_END) & (version < limits::LARGEST);
        let settled = (words[server::STANDING + object] == 0) | open;
        ok &= (1 <= version) & (object_expiry <= limits::LAST_END) & settled;
    }
    ok
}

// Returns whether the expiries of one client's volume leases are in range, both at the server and at the client ("expiries .. at most 2,148,483,647"), and
// its notes are objects of their volumes. 02, A6: "A set bit that is no object of its volume makes tables unsound".
fn sessions_fit(setup: Setup, words: &Words, client: usize) -> bool
    requires setup_value { in_range setup ≡ true }
    requires client_bound { client < CLIENTS }
    ensures { result ≡ sessions_sound setup (numbers_of words.now) client }
{
    let volumes = setup.volumes as usize;
    let mut ok = true;
    for volume in 0..volumes {
        let granted = words[server::SESSION_EXPIRY + (client * VOLUMES + volume)];
        let known = words[client::VIEW_EXPIRY + (client * VOLUMES + volume)];
        let notes = set_sound(
            setup,
            volume,
            words[server::NOTES + (client * VOLUMES + volume)],
        );
        ok &= (granted <= limits::LAST_END) & (known <= limits::LAST_END) & notes;
    }
    ok
}

// Returns whether the expiries of one client's object leases at the server are in range: "expiries .. at most 2,148,483,647".
fn holders_fit(words: &Words, client: usize, n: usize) -> bool
    requires client_bound { client < CLIENTS }
    requires n_bound { n ≤ OBJECTS }
    ensures { result ≡ all_from (holder_sound (numbers_of words.now) client) 0 n }
{
    let mut ok = true;
    for object in 0..n {
        ok &= words[server::LEASE + (client * SLOTS + object)] <= limits::LAST_END;
    }
    ok
}

// Returns whether the volume leases and the notes of all clients are sound.
fn all_sessions_fit(setup: Setup, words: &Words) -> bool
    requires { in_range setup ≡ true }
    ensures { result ≡ all_from (sessions_sound setup (numbers_of words.now)) 0 setup.clients }
{
    let clients = setup.clients as usize;
    let mut ok = true;
    for client in 0..clients {
        ok &= sessions_fit(setup, words, client);
    }
    ok
}

// Returns whether the object leases of all clients are in range.
fn all_holders_fit(setup: Setup, words: &Words) -> bool
    requires { in_range setup ≡ true }
    ensures { result ≡ all_from (holders_sound setup (numbers_of words.now)) 0 setup.clients }
{
    let clients = setup.clients as usize;
    let mut ok = true;
    for client in 0..clients {
        ok &= holders_fit(words, client, setup.objects as usize);
    }
    ok
}

// Answers question 1, "Are setup and tables sound: .. clock at most 2,147,483,647, ..", for the tables and the message list. The setup and the client
// records are checked elsewhere.
pub fn tables_sound(setup: Setup, words: &Words, values: &Values) -> bool
    requires { in_range setup ≡ true }
    ensures { result ≡ tables_sound setup (tables_of words.now values.now) }
{
    let volumes = volumes_fit(words, setup.volumes as usize);
    let objects = objects_fit(words, setup.objects as usize);
    let sessions = all_sessions_fit(setup, words);
    let holders = all_holders_fit(setup, words);
    let queue = messages::queue_sound(setup, words, values);
    (words[network::CLOCK] <= limits::LAST_CLOCK) & volumes & objects & sessions & holders & queue
}
