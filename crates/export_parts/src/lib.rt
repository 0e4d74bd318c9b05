// Reads the parts of a run file that a caller in another language lends: a setup in 48 bytes, and steps in records of 16 bytes, laid out as in a file.
// Other bytes are refused with the number that a file of them would be.
#![tactic(auto)]

ghost use Rattle.std.specs.Prelude.{◌*◌, ◌≤◌, ◌≡◌, length};
ghost use Rattle.laws.specs.Tabulate.{tabulate};
ghost use Rattle.export_parts.specs.Lent.{setup_lent, step_lent, steps_lent};
ghost use Rattle.file_records.specs.Sizes.{STEP, STEPS};

use file_records::list::Steps;
use file_records::sizes;
use protocol::refusal::Refusal;
use protocol::setup::Setup;

// Returns the setup in these bytes. Refuses with 7 if they are not a setup: there are not 48 bytes, or the byte after the counts is not 0. Whether the setup
// is in range is asked by those who use it.
pub fn setup_lent(bytes: &[u8]) -> Result<Setup, Refusal>
    ensures { result ≡ setup_lent bytes.now }
{
    if bytes.len() != sizes::SETUP {
        return Err(Refusal::Setup);
    }
    if bytes[3] != 0 {
        return Err(Refusal::Setup);
    }
    Ok(file_records::setup_in(bytes, 0))
}

// Returns the steps in the first `count` records.
fn steps_in(records: &[u8], count: usize) -> Steps
    requires count_in_bounds { STEP * count ≤ length records.now }
    requires count_bound { count ≤ STEPS }
    ensures { result ≡ tabulate (step_lent records.now) 0 count }
{
    let mut steps = Steps::new();
    for k in 0..count {
        steps.push(file_records::step_in(records, sizes::STEP * k));
    }
    steps
}

// Returns the steps in these records. Refuses with 10 if a record is not whole or there are more than 4,000.
pub fn steps_lent(records: &[u8]) -> Result<Steps, Refusal>
    ensures { result ≡ steps_lent records.now }
{
    let n = records.len();
    if n % sizes::STEP != 0 {
        return Err(Refusal::Parts);
    }
    if sizes::STEP * sizes::STEPS < n {
        return Err(Refusal::Parts);
    }
    Ok(steps_in(records, n / sizes::STEP))
}
