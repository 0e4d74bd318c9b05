// Ageing of notes at a clock step (02, A6): a client whose notes have waited too long is marked.
#![tactic(auto)]

ghost use Rattle.std.specs.Prelude.{◌≡◌, true, ◌*◌, ◌≤◌, ◌<◌};
ghost use Rattle.laws.specs.Loop.{all_from};
ghost use Rattle.protocol.specs.Setup.{in_range};
ghost use Rattle.protocol.specs.Writes.{age_at, aged_in, aged};
ghost use Rattle.server_marks.specs.SessionWords.{sessions_of, OnlySessions};
ghost use Rattle.server_ageing.specs.NoNotes.{none_at};
ghost use Rattle.setup.specs.Limits.{CLIENTS, VOLUMES};

use lease_tests::time;
use protocol::setup::Setup;
use setup::limits::VOLUMES;
use state_words::{Words, server};

// Returns whether none of the first n words of the notes holds a note.
fn no_notes(words: &Words, n: usize) -> bool
    requires { n ≤ CLIENTS * VOLUMES }
    ensures { result ≡ all_from (none_at (sessions_of words.now)) 0 n }
{
    let mut ok = true;
    for i in 0..n {
        ok &= words[server::NOTES + i] == 0;
    }
    ok
}

// Marks the client in the volume if its notes there are old: "A clock step to volume expiry + d or later .. marks a noted dash unreachable."
fn age_at(setup: Setup, words: &mut Words, clock: u32, client: usize, volume: usize)
    requires client_bound { client < CLIENTS }
    requires volume_bound { volume < VOLUMES }
    ensures words_after { sessions_of words.new ≡ age_at setup clock client (sessions_of words.old) volume }
    ensures only_sessions { OnlySessions words.old words.new }
{
    let i = client * VOLUMES + volume;
    let old = time::ages(
        clock,
        words[server::NOTES + i],
        words[server::SESSION_EXPIRY + i],
        setup.delay,
    );
    if old {
        server_marks::mark(&mut *words, client, volume);
    }
}

// Does so in each volume.
fn age_client(setup: Setup, words: &mut Words, clock: u32, client: usize)
    requires setup_value { in_range setup ≡ true }
    requires client_bound { client < CLIENTS }
    ensures words_after { sessions_of words.new ≡ aged_in setup clock (sessions_of words.old) client }
    ensures only_sessions { OnlySessions words.old words.new }
{
    for volume in 0..setup.volumes as usize {
        age_at(setup, &mut *words, clock, client, volume);
    }
}

// Does so for each client: what a clock step does before it completes writes. Most often there are no notes, and that is found out quickly.
pub fn age(setup: Setup, words: &mut Words, clock: u32)
    requires { in_range setup ≡ true }
    ensures words_after { sessions_of words.new ≡ aged setup clock (sessions_of words.old) }
    ensures only_sessions { OnlySessions words.old words.new }
{
    let n = setup.clients as usize;
    if no_notes(&*words, n * VOLUMES) {
        return;
    }
    for client in 0..n {
        age_client(setup, &mut *words, clock, client);
    }
}
