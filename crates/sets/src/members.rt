// Goes over the members of a set in their order, and passes quickly over the numbers that are none.
ghost use Rattle.std.specs.Prelude.{◌≡◌, ◌-◌, ◌≤◌, ◌<◌};
ghost use Rattle.std.specs.Iterator.{at_most};
ghost use Rattle.sets.specs.Members.{gives};

// What is left of the members of `set` that are below `n`: those from `from` on.
#[derive(Drop)]
pub struct Members {
    set: u32,
    from: usize,
    n: usize,
}

// Returns the members of the set that are below n.
pub fn below(set: u32, n: usize) -> Members
    requires { n < 32 }
    ensures { result ≡ record { set = set; from = 0; n = n } }
{
    Members { set, from: 0, n }
}

impl Iterator for Members {
    type Item = usize;

    ghost can_next = { λ s. (s.from ≤ s.n) × (s.n < 32) };

    ghost next_gives = { gives };

    ghost remaining = { λ s. at_most (s.n - s.from) };

    // Returns the next member, or none after the last.
    fn next(&mut self) -> Option<usize> {
        let member = crate::next(self.set, self.from, self.n);
        if self.n <= member {
            return None;
        }
        self.from = member + 1;
        Some(member)
    }
}
