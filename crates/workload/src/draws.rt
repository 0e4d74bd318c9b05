// 02, A5: the generator of a workload. Draws numbers from a seed, and makes a step of every five.
ghost use Rattle.std.specs.Prelude.{◌≡◌, ◌*◌, ◌%◌, ◌≤◌, true, if◌then◌else◌};
ghost use Rattle.protocol.specs.Setup.{in_range};
ghost use Rattle.workload.specs.Draws.{next, only_used, total_after, drawn_after};
ghost use Rattle.setup.specs.Limits.{PLACES};

use protocol::setup::Setup;
use protocol::step::Step;
use setup::limits::PLACES;

// Returns the product "1,664,525 × s", "kept modulo 2 to the 32nd".
fn product(seed: u32) -> u32
    ensures { result ≡ (1664525 * seed) % 4294967296 }
{
    (1664525 * u64::from(seed) % 4294967296) as u32
}

// Returns the number after a seed: "the next is 1,664,525 × s + 1,013,904,223, kept modulo 2 to the 32nd". The addition wraps on purpose.
pub fn next(seed: u32) -> u32
    ensures { result ≡ next seed }
{
    std::num::wrapping_add_u32(product(seed), 1013904223)
}

// Returns the field if the step uses it, else its zero.
fn field_if<T: Copy>(used: bool, field: T, zero: T) -> T
    ensures { result ≡ (if used then field else zero) }
{
    if used { field } else { zero }
}

// Returns the step with the fields that its kind does not use set to 0: "unused fields are 0". The kinds drawn, 1 to 9, have no name.
fn only_used(step: Step) -> Step
    ensures { result ≡ only_used step }
{
    Step {
        kind: step.kind,
        client: field_if(known_kinds::uses_client(step), step.client, 0),
        object: field_if(known_kinds::uses_object(step), step.object, 0),
        place: field_if(known_kinds::uses_place(step), step.place, 0),
        clock: field_if(known_kinds::uses_clock(step), step.clock, 0),
        value: field_if(known_kinds::uses_value(step), step.value, 0),
    }
}

// Returns the clock total after a step: "A clock step .. has the new total as its clock".
fn total_after(step: Step, total: u32) -> u32
    ensures { result ≡ total_after step total }
{
    field_if(known_kinds::uses_clock(step), step.clock, total)
}

// Returns the "remainder of draw by their counts", of clients, objects or places.
fn remainder(draw: u32, count: u32) -> u8
    requires le_count { 1 ≤ count }
    requires count_bound { count ≤ PLACES }
    ensures { result ≡ draw % count }
{
    (draw % count) as u8
}

// A drawn step, the last of its draws, which seeds the next step, and the clock total after it.
#[derive(Clone, Copy)]
pub struct Drawn {
    pub step: Step,
    pub seed: u32,
    pub total: u32,
}

// Draws the next step, for a setup in range: "Each draw is that next number. Each step draws five times, in order: kind 1 + draw mod 9, dash, object and
// place .., and amount draw mod 5. A clock step adds the amount to a total ..; a write has the amount as its value". The total of 4,000 steps is at most
// 16,000, so adding to it cannot overflow.
pub fn draw_step(seed: u32, setup: Setup, total: u32) -> Drawn
    requires setup_value { in_range setup ≡ true }
    requires total_bound { total ≤ 16000 }
    ensures { result ≡ drawn_after setup seed total }
{
    let first = next(seed);
    let second = next(first);
    let third = next(second);
    let fourth = next(third);
    let fifth = next(fourth);
    let amount = fifth % 5;
    let sum = total + amount;
    let step = only_used(Step {
        kind: (1 + first % 9) as u8,
        client: remainder(second, setup.clients),
        object: remainder(third, setup.objects),
        place: remainder(fourth, PLACES as u32),
        clock: sum,
        value: u64::from(amount),
    });
    Drawn {
        step,
        seed: fifth,
        total: total_after(step, total),
    }
}
