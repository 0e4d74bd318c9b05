// 02, A5: makes a workload from a seed, as steps or as a run file.
#![tactic(auto)]

pub mod draws;

ghost use Rattle.std.specs.Prelude.{◌≡◌, ◌≤◌, true, length};
ghost use Rattle.protocol.specs.Setup.{in_range};
ghost use Rattle.bytes_layout.specs.Report.{Reports};
ghost use Rattle.file_records.specs.Bytes.{file_bytes};
ghost use Rattle.workload.specs.Workload.{workload, unless_steps_refused, workload_of, file_refusal};

use file_records::list::Steps;
use file_records::sizes::STEPS;
use protocol::refusal::Refusal;
use protocol::setup::Setup;

// Refuses with 7 a setup out of range, and with "10 when more than 4,000 steps are wanted, .. after 01's setup question".
fn refusal(setup: Setup, count: u32) -> Result<(), Refusal>
    ensures { result ≡ unless_steps_refused setup count tt }
{
    if !setup::in_range(setup) {
        return Err(Refusal::Setup);
    }
    if STEPS < count as usize {
        return Err(Refusal::Parts);
    }
    Ok(())
}

// Returns the first `count` steps of a seed, for a setup in range: "Each step draws five times".
fn drawn_steps(seed: u32, setup: Setup, count: u32) -> Steps
    requires setup_value { in_range setup ≡ true }
    requires count_bound { count ≤ STEPS }
    ensures { result ≡ workload setup seed count }
{
    let mut steps = Steps::new();
    let mut last = seed;
    let mut total = 0;
    for _k in 0..count {
        let drawn = crate::draws::draw_step(last, setup, total);
        steps.push(drawn.step);
        last = drawn.seed;
        total = drawn.total;
    }
    steps
}

// Returns the first `count` steps of a seed, "the same long ride every time", or the refusal.
pub fn steps(seed: u32, setup: Setup, count: u32) -> Result<Steps, Refusal>
    ensures { result ≡ workload_of setup seed count }
{
    refusal(setup, count)?;
    Ok(drawn_steps(seed, setup, count))
}

// Writes the run file of these steps at the start of the output. Refusals: 7 for a setup out of range; then 10 for more than 4,000 steps, a file of
// more than 65,536 bytes, or an output that is too short.
pub fn write(
    seed: u32,
    note: &[u8],
    setup: Setup,
    count: u32,
    out: &mut [u8],
) -> Result<usize, Refusal>
    ensures { Reports (file_refusal (length note.now) setup count (length out.old)) (file_bytes note.now setup (workload setup seed count)) out.old out.new result }
{
    refusal(setup, count)?;
    let steps = drawn_steps(seed, setup, count);
    file_writer::write(note, setup, steps.as_slice(), out)
}
