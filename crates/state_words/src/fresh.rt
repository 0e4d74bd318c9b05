// Writing the fresh state (01, "Tables").
ghost use Rattle.std.specs.Prelude.{true, false, cond, ◌≡◌};
ghost use Rattle.protocol.specs.Setup.{in_range};
ghost use Rattle.protocol.specs.Refusals.{refused_by};
ghost use Rattle.protocol.specs.Tables.{fresh_tables};
ghost use Rattle.state_words.specs.View.{tables_of, records_of, fresh_records};

use crate::{VALUES, Values, WORDS, Words, client, pass, server};
use protocol::refusal::Refusal;
use protocol::setup::Setup;
use setup::limits;

// Writes the fresh state: the server's epochs and versions and the clients' next request numbers are 1. "All else is fresh 0, none or no; clock 0."
pub fn fresh(words: &mut Words, values: &mut Values)
    ensures values_after { tables_of words.new values.new ≡ fresh_tables }
    ensures values_after_2 { records_of words.new values.new ≡ fresh_records }
{
    *words = [0; WORDS];
    *values = [0; VALUES];
    pass::fill(&mut *words, server::VOLUME_EPOCH, limits::VOLUMES, 1);
    pass::fill(&mut *words, server::VERSION, limits::SLOTS, 1);
    pass::fill(&mut *words, client::REQUEST_NEXT, limits::CLIENTS, 1);
}

// Writes the fresh state if the setup is in range; otherwise changes nothing and refuses: "Elsewhere: setup in range? 7."
pub fn fresh_for(setup: Setup, words: &mut Words, values: &mut Values) -> Result<(), Refusal>
    ensures refusal { refused_by result ≡ cond (in_range setup) 0 7 }
    ensures accepts { in_range setup ≡ true → (tables_of words.new values.new ≡ fresh_tables) × (records_of words.new values.new ≡ fresh_records) }
    ensures refuses { in_range setup ≡ false → (words.new ≡ words.old) × (values.new ≡ values.old) }
{
    if setup::in_range(setup) {
        fresh(&mut *words, &mut *values);
        return Ok(());
    }
    Err(Refusal::Setup)
}
