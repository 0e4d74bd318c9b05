ghost use Rattle.std.specs.Prelude.{◌≡◌, true, ◌≤◌, ◌<◌};
ghost use Rattle.protocol.specs.Setup.{in_range};
ghost use Rattle.protocol.specs.SoundLaws.{Growing};
ghost use Rattle.protocol.specs.Server.{renewed};
ghost use Rattle.protocol.specs.Sound.{clock_limit};
ghost use Rattle.state_words.specs.View.{tables_of, records_of};

use crate::answer::renew_by;
use protocol::setup::Setup;
use server_replies::Renew;
use state_words::{Values, Words, server};

// Receives a client's RENEW for an object. "number not above the highest seen: nothing", so a doubled RENEW does nothing. "Otherwise note it, then take the
// first rule that fits."
pub fn receive_renew(setup: Setup, words: &mut Words, values: &mut Values, renew: Renew)
    requires setup_value { in_range setup ≡ true }
    requires values_bound { (tables_of words.old values.old).clock ≤ clock_limit }
    requires growing { Growing setup (tables_of words.old values.old).objects }
    requires client_lt_clients { renew.client < setup.clients }
    requires object_lt_objects { renew.object < setup.objects }
    ensures values_after { tables_of words.new values.new ≡ renewed setup (tables_of words.old values.old) renew.client renew.object renew.number renew.epoch renew.held }
    ensures values_unchanged { records_of words.new values.new ≡ records_of words.old values.old }
{
    if renew.number <= words[server::SEEN + renew.client] {
        return;
    }
    words[server::SEEN + renew.client] = renew.number;
    renew_by(setup, &mut *words, &mut *values, renew);
}
