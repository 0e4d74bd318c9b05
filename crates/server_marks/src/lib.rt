// Marking a client unreachable in a volume, for every rule that does.
#![tactic(auto)]

ghost use Rattle.std.specs.Prelude.{◌≡◌, ◌<◌};
ghost use Rattle.protocol.specs.Writes.{marked};
ghost use Rattle.server_marks.specs.SessionWords.{sessions_of, OnlySessions};
ghost use Rattle.setup.specs.Limits.{CLIENTS, VOLUMES};

use setup::limits::VOLUMES;
use state_words::{Words, server};

// Marks the client unreachable in the volume. 02, A6: "Any mark drops its notes there and voids the batch."
pub fn mark(words: &mut Words, client: usize, volume: usize)
    requires client_bound { client < CLIENTS }
    requires volume_bound { volume < VOLUMES }
    ensures words_after { sessions_of words.new ≡ marked (sessions_of words.old) client volume }
    ensures only_sessions { OnlySessions words.old words.new }
{
    let i = client * VOLUMES + volume;
    words[server::UNREACHABLE + i] = 1;
    words[server::NOTES + i] = 0;
    words[server::BATCH + i] = 0;
}
