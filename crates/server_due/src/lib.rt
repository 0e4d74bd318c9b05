// Finding the standing writes that may complete (01, "Steps" 1 and 4): those that are ready and, at a clock step, those past their latest end.
#![tactic(auto)]

ghost use Rattle.std.specs.Prelude.{◌≡◌, true, ◌<◌};
ghost use Rattle.protocol.specs.Setup.{in_range};
ghost use Rattle.protocol.specs.Writes.{ready, due};
ghost use Rattle.state_words.specs.View.{numbers_of};
ghost use Rattle.server_due.specs.Triggers.{triggered};

use lease_tests::{place, time};
use protocol::setup::Setup;
use server_waiting::clients;
use state_words::{Words, network, server};

// The event that makes the server look for writes to complete. A clock step completes all that are due; a DROPPED, those of its volume that are ready.
// Kept: it has the shape of Option<usize>, but None would not say that the clock was set.
#[derive(Clone, Copy)]
pub enum Trigger {
    Clock,
    Volume(usize),
}

// Returns whether the object has a standing write that is ready: "none waits and the clock is at or past guard".
pub fn ready(setup: Setup, words: &Words, object: usize) -> bool
    requires setup_value { in_range setup ≡ true }
    requires object_lt_objects { object < setup.objects }
    ensures { result ≡ ready setup (numbers_of words.now) object }
{
    let volume = place::volume_of(setup, object);
    if words[server::STANDING + object] != 0 {
        let any = clients::waited(words, object, setup.clients as usize);
        let late = time::guard_passed(words[network::CLOCK], words[server::GUARD + volume]);
        return !any & late;
    }
    false
}

// Returns whether the object has a standing write that is due: "no waiting dash and clock at or past guard, or whose latest end is below the clock".
pub fn due(setup: Setup, words: &Words, object: usize) -> bool
    requires setup_value { in_range setup ≡ true }
    requires object_lt_objects { object < setup.objects }
    ensures { result ≡ due setup (numbers_of words.now) object }
{
    if ready(setup, words, object) {
        return true;
    }
    let over = time::end_over(words[network::CLOCK], words[server::END + object]);
    (words[server::STANDING + object] != 0) & over
}

// Returns whether the trigger completes the object's write.
pub fn triggered(setup: Setup, trigger: Trigger, words: &Words, object: usize) -> bool
    requires setup_value { in_range setup ≡ true }
    requires object_lt_objects { object < setup.objects }
    ensures { result ≡ triggered setup trigger (numbers_of words.now) object }
{
    match trigger {
        Trigger::Clock => due(setup, words, object),
        Trigger::Volume(volume) => {
            place::volume_of(setup, object) == volume && ready(setup, words, object)
        }
    }
}
