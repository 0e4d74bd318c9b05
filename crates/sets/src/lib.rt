// Sets of numbers below 32 as the bits of a word: bit k says whether k is a member.
#![tactic(auto)]

pub mod members;

ghost use Rattle.std.specs.Prelude.{cond, ◌≡◌, ◌≤◌, ◌<◌};
ghost use Rattle.laws.specs.Sets.{bit_at, added, removed, less, within};
ghost use Rattle.laws.specs.Skip.{Found};

// Returns whether k is a member.
pub fn has(m: u32, k: usize) -> bool
    requires { k < 32 }
    ensures { result ≡ bit_at m k }
{
    (m >> k) % 2 == 1
}

// Returns whether k is a member, for any k: no number from 32 on is one.
pub fn contains(m: u32, k: usize) -> bool
    ensures { result ≡ bit_at m k }
{
    if 32 <= k {
        return false;
    }
    has(m, k)
}

// Returns whether each member of m is one of n.
pub fn within(m: u32, n: u32) -> bool
    ensures { result ≡ within m n }
{
    m & !n == 0
}

// Returns the set with k added, if `yes` is true.
pub fn with_if(m: u32, k: usize, yes: bool) -> u32
    requires { k < 32 }
    ensures { result ≡ cond yes (added m k) m }
{
    if yes {
        return m | (1 << k);
    }
    m
}

// Returns the set without k.
pub fn without(m: u32, k: usize) -> u32
    requires { k < 32 }
    ensures { result ≡ removed m k }
{
    m & !(1 << k)
}

// Returns the members of m that are not in n.
pub fn less(m: u32, n: u32) -> u32
    ensures { result ≡ less m n }
{
    m & !n
}

// Returns the first member from `from` on and below n, or n if there is none.
// Kept: no loop, since `trailing_zeros` finds the member.
pub fn next(m: u32, from: usize, n: usize) -> usize
    requires from_le_n { from ≤ n }
    requires n_bound { n < 32 }
    ensures { Found (bit_at m) from n result }
{
    let place = from + u32::trailing_zeros(m >> from) as usize;
    if n <= place {
        return n;
    }
    place
}
