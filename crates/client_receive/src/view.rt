// What a client knows of a volume, as stored in the words.
ghost use Rattle.std.specs.Prelude.{◌≡◌, ◌<◌};
ghost use Rattle.protocol.specs.Tables.{by_volume};
ghost use Rattle.client_receive.specs.Views.{view_stored};
ghost use Rattle.setup.specs.Limits.{CLIENTS, VOLUMES};

use setup::limits::VOLUMES;
use state_words::{Words, client};

// Stores the volume's epoch and the expiry of the client's volume lease: "store its fields, epoch too".
pub fn put(words: &mut Words, client: usize, volume: usize, epoch: u32, expiry: u32)
    requires client_bound { client < CLIENTS }
    requires volume_bound { volume < VOLUMES }
    ensures { words.new ≡ view_stored words.old (by_volume client volume) epoch expiry }
{
    words[client::VIEW_EPOCH + (client * VOLUMES + volume)] = epoch;
    words[client::VIEW_EXPIRY + (client * VOLUMES + volume)] = expiry;
}
