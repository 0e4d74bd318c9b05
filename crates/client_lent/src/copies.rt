ghost use Rattle.std.specs.Prelude.{◌≡◌, get_or, set};
ghost use Rattle.std.specs.List.{list_all};
ghost use Rattle.protocol.specs.Tables.{no_copy};
ghost use Rattle.protocol.specs.Client.{changed};
ghost use Rattle.protocol.specs.Sound.{time_fits, copies_sound};

use crate::list;
use gate_records::copies::{as_many, copy_sound};
use protocol::records::Copy;
use protocol::setup::Setup;
use protocol::step::CopyChange;
use setup::fresh::fresh_copy;

// Returns the copy at index i of "a lent list of records, all dashes' in one"; indices past the end read as no copy.
pub fn look(copies: &[Copy], i: usize) -> Copy
    ensures { result ≡ get_or copies.now i no_copy }
{
    list::look(copies, i, fresh_copy())
}

// "erase the copy (version, value and expiry 0)"
pub fn erase(copies: &mut [Copy], i: usize)
    ensures { copies.new ≡ set copies.old i no_copy }
{
    list::store(copies, i, fresh_copy());
}

// Applies a change to the copy at index i, or does nothing if i is past the end.
pub fn change(copies: &mut [Copy], i: usize, u: CopyChange)
    ensures { copies.new ≡ set copies.old i (changed (get_or copies.old i no_copy) u) }
{
    match u {
        CopyChange::Keep => {}
        CopyChange::Fill(c) => list::store(copies, i, c),
        CopyChange::Erase => erase(copies, i),
    }
}

// Returns whether every copy's expiry is in range.
// Kept: a `for` with `&=` in place of `all`, which leaves the loop at the first "no", so it is not compiled to vector instructions (gate_tables).
fn all_sound(copies: &[Copy]) -> bool
    ensures { result ≡ list_all (λ c. time_fits c.expiry) copies.now }
{
    let mut ok = true;
    for copy in copies {
        ok &= copy_sound(*copy);
    }
    ok
}

// Answers question 1 for the copies: there is one per client and object ("another length is unsound"), and every expiry is in range.
pub fn sound(copies: &[Copy], setup: Setup) -> bool
    ensures { result ≡ copies_sound setup copies.now }
{
    as_many(setup, copies.len()) && all_sound(copies)
}
