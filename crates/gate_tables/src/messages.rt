ghost use Rattle.std.specs.Prelude.{true, ◌≡◌};
ghost use Rattle.protocol.specs.Setup.{in_range};
ghost use Rattle.protocol.specs.Sound.{queue_sound};
ghost use Rattle.state_words.specs.View.{tables_of};

use gate_message::messages::message_sound;
use network_queue::list;
use protocol::setup::Setup;
use setup::limits::PLACES;
use state_words::{Values, Words, network};

// Returns whether the message list is sound: "at most 64 messages", each of them sound.
pub fn queue_sound(setup: Setup, words: &Words, values: &Values) -> bool
    requires { in_range setup ≡ true }
    ensures { result ≡ queue_sound setup (tables_of words.now values.now).queue }
{
    let length = words[network::LENGTH];
    if (PLACES as u32) < length {
        return false;
    }
    let n = length as usize;
    let mut ok = true;
    for i in 0..n {
        let message = list::message_at(words, values, i);
        ok &= message_sound(setup, message);
    }
    ok
}
