// Removing a message from the list, in place.
ghost use Rattle.std.specs.Prelude.{◌≡◌, ◌<◌, ◌≤◌};
ghost use Rattle.protocol.specs.Decide.{taken};
ghost use Rattle.state_words.specs.View.{tables_of, records_of};
ghost use Rattle.setup.specs.Limits.{PLACES};

use network_rows::shift::shift;
use state_words::{Values, Words, network};

// Removes the message at a place: "A removal closes the gap." The row left over past the new end reads as blank, so it need not be cleared.
pub fn remove(words: &mut Words, values: &mut Values, place: usize)
    requires place_bound { place < (tables_of words.old values.old).queue.len }
    requires values_bound { (tables_of words.old values.old).queue.len ≤ PLACES }
    ensures values_after { tables_of words.new values.new ≡ taken (tables_of words.old values.old) place }
    ensures values_unchanged { records_of words.new values.new ≡ records_of words.old values.old }
{
    let n = words[network::LENGTH];
    let rows = n as usize - (place + 1);
    shift(
        words,
        network::MESSAGES,
        place * network::ROW,
        rows * network::ROW,
        network::ROW,
    );
    shift(values, network::MESSAGE_VALUE, place, rows, 1);
    words[network::LENGTH] = n - 1;
}
