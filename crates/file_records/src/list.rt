// A list of steps, with room for as many as a run file can have.
ghost use Rattle.std.specs.Prelude.{◌≡◌, ◌<◌, [], ◌∷◌, ◌++◌, length};

use crate::sizes::STEPS;
use protocol::step::Step;
use std::marker::Model;

// The list is the first `len` items.
#[derive(Clone, Copy)]
pub struct Steps {
    items: [Step; STEPS],
    len: usize,
}

impl Model for Steps {
    ghost use Rattle.std.specs.Prelude.{List, ◌≤◌, ◌-◌, ◌≡◌, length, take, drop, replicate};
    ghost use Rattle.std.proofs.Common.{length-take-le};
    ghost use Rattle.protocol.specs.declared.step.Step.{Step};
    ghost use Rattle.file_records.specs.Sizes.{STEPS};
    ghost use Rattle.file_records.specs.Records.{no_step};
    ghost use Rattle.file_records.specs.Room.{filled_up, room_there, items_again};

    ghost Value = { List Step };

    ghost view = { λ s. take s.len s.items };

    // The room past the list has steps of zeros, so that a list is its items and nothing else.
    ghost invariant = { λ s. (s.len ≤ STEPS) × (length s.items ≡ STEPS) × (drop s.len s.items ≡ replicate (STEPS - s.len) no_step) };

    ghost inverse = { λ xs. record { items = filled_up xs; len = length xs } };

    ghost inverse_ok = { λ s h i. record { items = items_again s.len s.items h i; len = length-take-le s.len s.items (room_there s.len s.items h) i } };
}

impl Steps {
    // Returns the empty list.
    pub fn new() -> Steps
        ensures { result ≡ [] }
    {
        Steps {
            items: [crate::no_step(); STEPS],
            len: 0,
        }
    }

    // Adds a step at the end. The caller checks that there is room.
    pub fn push(&mut self, step: Step)
        requires { length self.old < STEPS }
        ensures { self.new ≡ self.old ++ step ∷ [] }
    {
        self.items[self.len] = step;
        self.len += 1;
    }

    // Returns the steps, in order.
    pub fn as_slice(&self) -> &[Step]
        ensures { result.now ≡ self.now }
    {
        &self.items[..self.len]
    }
}
