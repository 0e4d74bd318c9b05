// Reads the setup and the steps of a run file from their bytes, writes them (`bytes`), and holds steps in a list of fixed room (`list`).
#![tactic(auto)]

pub mod bytes;
pub mod list;
pub mod sizes;

ghost use Rattle.std.specs.Prelude.{◌+◌, ◌≤◌, ◌≡◌, length};
ghost use Rattle.file_records.specs.Records.{setup_in, step_in, no_step};
ghost use Rattle.file_records.specs.Sizes.{SETUP, STEP};

use protocol::setup::Setup;
use protocol::step::Step;

// Returns the "setup (48 bytes: dash, volume and object counts, a 0, tv, t, m, 32 volume bytes ..)" that begins at `at`, with d "in the last four volume
// bytes" (02, A6). Callers check the byte after the counts, which must be 0.
pub fn setup_in(file: &[u8], at: usize) -> Setup
    requires { at + SETUP ≤ length file.now }
    ensures { result ≡ setup_in file.now at }
{
    Setup {
        clients: u32::from(file[at]),
        volumes: u32::from(file[at + 1]),
        objects: u32::from(file[at + 2]),
        tv: bytes_layout::read_u32(file, at + 4),
        t: bytes_layout::read_u32(file, at + 8),
        m: bytes_layout::read_u32(file, at + 12),
        volume: bytes_layout::read_bytes(file, at + 16),
        delay: bytes_layout::read_u32(file, at + 44),
    }
}

// Returns the step whose "16 bytes (kind, dash, object, place; clock in 4; value in 8 ..)" begin at `at`.
pub fn step_in(file: &[u8], at: usize) -> Step
    requires { at + STEP ≤ length file.now }
    ensures { result ≡ step_in file.now at }
{
    Step {
        kind: file[at],
        client: file[at + 1],
        object: file[at + 2],
        place: file[at + 3],
        clock: bytes_layout::read_u32(file, at + 4),
        value: bytes_layout::read_u64(file, at + 8),
    }
}

// Returns the step of zeros, used where there is no step.
// Kept: the contract of `file_reader::step_at`, which cannot fail, names this step.
pub fn no_step() -> Step
    ensures { result ≡ no_step }
{
    Step {
        kind: 0,
        client: 0,
        object: 0,
        place: 0,
        clock: 0,
        value: 0,
    }
}
