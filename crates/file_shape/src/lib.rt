// Finds the parts of a run file, and tests whether a file has the shape that 01 requires.

#![tactic(auto)]

ghost use Rattle.std.specs.Prelude.{◌≡◌};
ghost use Rattle.file_shape.specs.Shape.{count_of, setup_place, first_place, step_fits, steps_fit, trailer_fits, measured, contents_fit, well_formed};
ghost use Rattle.file_shape.specs.Parts.{Parts};

use file_records::sizes;
use protocol::step::Step;

// Returns whether the step fits: "unused fields 0". "Its shape asks nothing of an unknown kind or of that step's fields." A save and a return use the
// place alone: "two new step kinds, 10 save and 11 return, with the name in the place field". The shape allows any name.
pub fn step_fits(step: Step) -> bool
    ensures { result ≡ step_fits step }
{
    let client = known_kinds::uses_client(step) | (step.client == 0);
    let object = known_kinds::uses_object(step) | (step.object == 0);
    let place = known_kinds::uses_place(step) | known_kinds::uses_name(step) | (step.place == 0);
    let clock = known_kinds::uses_clock(step) | (step.clock == 0);
    let value = known_kinds::uses_value(step) | (step.value == 0);
    !known_kinds::known_kind(step) | (client & object & place & clock & value)
}

// Returns whether the trailer's numbers agree with each other and with a file of n bytes: "step count, then the distance from the file's end back to the
// setup, 56 + 16 × count".
fn trailer_fits(n: usize, count: u32, distance: u32) -> bool
    ensures { result ≡ trailer_fits n count distance }
{
    (count as usize <= sizes::STEPS)
        & (distance as usize == sizes::EMPTY + sizes::STEP * (count as usize))
        & (distance as usize <= n)
}

// Returns whether the file's length is allowed ("A run file, at most 65,536 bytes") and agrees with its trailer.
fn measured(file: &[u8]) -> bool
    ensures { result ≡ measured file.now }
{
    let n = file.len();
    if n < sizes::EMPTY {
        return false;
    }
    if sizes::FILE < n {
        return false;
    }
    trailer_fits(
        n,
        bytes_layout::read_u32(file, n - sizes::TRAILER),
        bytes_layout::read_u32(file, n - 4),
    )
}

// Returns the number of steps that the "trailer of 8: step count, .." gives.
pub fn count_of(file: &[u8]) -> u32
    requires { Parts file.now }
    ensures { result ≡ count_of file.now }
{
    bytes_layout::read_u32(file, file.len() - sizes::TRAILER)
}

// Returns where the setup begins, after "a rider's note of any length": the trailer's "distance from the file's end back to the setup".
pub fn setup_place(file: &[u8]) -> usize
    requires { Parts file.now }
    ensures { result ≡ setup_place file.now }
{
    let n = file.len();
    n - bytes_layout::read_u32(file, n - 4) as usize
}

// Returns whether every step record fits. The place runs along: "keep a running place and add 16 after each".
// Kept: it asks every record, with `&=`, so that the compiler asks four at a time.
fn steps_fit(file: &[u8]) -> bool
    requires { Parts file.now }
    ensures { result ≡ steps_fit file.now (first_place file.now) (count_of file.now) }
{
    let mut place = setup_place(file) + sizes::SETUP;
    let mut ok = true;
    for _k in 0..count_of(file) {
        ok &= step_fits(file_records::step_in(file, place));
        place += sizes::STEP;
    }
    ok
}

// Returns whether the byte after the counts is 0 ("dash, volume and object counts, a 0"), the setup is in range and every step record fits.
fn contents_fit(file: &[u8]) -> bool
    requires { Parts file.now }
    ensures { result ≡ contents_fit file.now }
{
    let at = setup_place(file);
    let head = (file[at + 3] == 0) & setup::in_range(file_records::setup_in(file, at));
    head & steps_fit(file)
}

// Returns whether the bytes are a run file: "Run file shaped as above, its setup in range? 9." Takes any bytes.
pub fn well_formed(file: &[u8]) -> bool
    ensures { result ≡ well_formed file.now }
{
    measured(file) && contents_fit(file)
}
