// Taking a client's leases away, for each answer of the client that gives them up.
#![tactic(auto)]

ghost use Rattle.std.specs.Prelude.{◌≡◌, ℕ, Bool, ◌+◌, ◌≤◌, ◌<◌};
ghost use Rattle.laws.specs.Store.{store_each};
ghost use Rattle.protocol.specs.Tables.{by_object};
ghost use Rattle.setup.specs.Limits.{CLIENTS, OBJECTS};
ghost use Rattle.state_words.specs.Fields.{at, LEASE};

use setup::limits::SLOTS;
use state_words::{Words, server};

// Zeroes the client's leases on those of the first n objects for which `given_up` is true: "Clear the dash's leases in the volume" after a DROPPED, and after
// a CLEARED "drops the notes and leases of the set in CLEARED".
pub fn clear<F: Fn(usize) -> bool>(words: &mut Words, client: usize, n: usize, given_up: F)
    requires client_bound { client < CLIENTS }
    requires n_bound { n ≤ OBJECTS }
    requires callable { (o : ℕ) → o < n → F.pre given_up o }
    ensures { (p : ℕ → Bool) → ((o : ℕ) (yes : Bool) → o < n → F.post given_up o yes → yes ≡ p o) → words.new ≡ store_each p (λ (o : ℕ). at LEASE + by_object client o) (λ (o : ℕ). 0) words.old n }
{
    for object in 0..n {
        if given_up(object) {
            words[server::LEASE + (client * SLOTS + object)] = 0;
        }
    }
}
