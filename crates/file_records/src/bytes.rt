// Writes the records of a run file: a setup, a step, the trailer. Each public function writes at the offset `at`, where the caller has checked that
// there is room, and returns the offset after the record.
ghost use Rattle.std.specs.Prelude.{◌+◌, ◌≤◌, true, ◌≡◌, length};
ghost use Rattle.protocol.specs.Setup.{in_range};
ghost use Rattle.bytes_layout.specs.Number.{Stored};
ghost use Rattle.bytes_layout.specs.Written.{Written};
ghost use Rattle.file_records.specs.Bytes.{setup_front, setup_bytes, step_bytes, trailer_bytes};
ghost use Rattle.file_records.specs.Round.{Widths};
ghost use Rattle.file_records.specs.Sizes.{SETUP, STEP, TRAILER, STEPS};
ghost use Rattle.setup.specs.Limits.{OBJECTS};

use crate::sizes;
use protocol::setup::Setup;
use protocol::step::Step;

// Writes the counts and durations. The counts of a setup in range fit into bytes.
fn write_front(out: &mut [u8], at: usize, setup: Setup)
    requires at_in_bounds { at + 16 ≤ length out.old }
    requires setup_value { in_range setup ≡ true }
    ensures { Stored out.old out.new at (setup_front setup) }
{
    bytes_layout::write_four(
        out,
        at,
        setup.clients as u8,
        setup.volumes as u8,
        setup.objects as u8,
        0,
    );
    bytes_layout::write_u32(out, at + 4, setup.tv);
    bytes_layout::write_u32(out, at + 8, setup.t);
    bytes_layout::write_u32(out, at + 12, setup.m);
}

// Writes a setup, the delay "in the last four volume bytes" (02, A6). The last two clauses are for callers, which cannot see that a setup has a volume byte
// for each object that there can be.
pub fn write_setup(out: &mut [u8], at: usize, setup: Setup) -> usize
    requires at_in_bounds { at + SETUP ≤ length out.old }
    requires setup_value { in_range setup ≡ true }
    ensures written { Written out.old out.new at (setup_bytes setup) result }
    ensures place { result ≡ at + SETUP }
    ensures volumes { length setup.volume ≡ OBJECTS }
{
    write_front(out, at, setup);
    let volume = setup.volume;
    bytes_layout::output::write_bytes(out, at + 16, &volume);
    bytes_layout::write_u32(out, at + 44, setup.delay);
    at + sizes::SETUP
}

// Writes a step. The second clause tells callers that the numbers of a step fit their widths.
pub fn write_step(out: &mut [u8], at: usize, step: Step) -> usize
    requires { at + STEP ≤ length out.old }
    ensures written { Written out.old out.new at (step_bytes step) result }
    ensures widths { Widths step }
{
    bytes_layout::write_four(out, at, step.kind, step.client, step.object, step.place);
    bytes_layout::write_u32(out, at + 4, step.clock);
    bytes_layout::write_u64(out, at + 8, step.value);
    at + sizes::STEP
}

// Writes the step count and the distance from the file's end back to the setup.
pub fn write_trailer(out: &mut [u8], at: usize, count: u32) -> usize
    requires at_in_bounds { at + TRAILER ≤ length out.old }
    requires count_bound { count ≤ STEPS }
    ensures { Written out.old out.new at (trailer_bytes count) result }
{
    bytes_layout::write_u32(out, at, count);
    let distance = sizes::EMPTY + sizes::STEP * (count as usize);
    bytes_layout::write_u32(out, at + 4, distance as u32);
    at + sizes::TRAILER
}
