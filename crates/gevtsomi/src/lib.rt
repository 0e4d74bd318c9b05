// The library that other languages link (`tools/build gevtsomi`). Its calls take numbers and slices, and return 0 or the refusal's number in 01 or 02;
// a refused call changes nothing. A slice is two arguments, its address and its length.
#![tactic(auto)]

ghost use Rattle.std.specs.Prelude.{◌≡◌, length};
ghost use Rattle.bytes_layout.specs.Report.{report_number, Reports};
ghost use Rattle.protocol.specs.Refusals.{refused_by};
ghost use Rattle.export_parts.specs.Lent.{setup_lent, steps_lent, lent_refusal, lent_file};
ghost use Rattle.gevtsomi.specs.Calls.{length_after, Lists, WritesFile, workload_refusal, workload_file, WritesWorkload, reason_after, event_after, TellsWhy};
ghost use Rattle.export_frames.specs.Calls.{EncodesFields, DecodesFields};
ghost use Rattle.export_frames.specs.Numbers.{fields_from};

use promises::reasons::Reason;
use protocol::refusal::Refusal;

// Returns 0 or the refusal's number; if bytes were written, stores how many.
fn status_of(report: Result<usize, Refusal>, written: &mut usize) -> u8
    ensures number { result ≡ report_number report }
    ensures length { written.new ≡ length_after report written.old }
{
    match report {
        Ok(n) => {
            *written = n;
            0
        }
        Err(refusal) => u8::from(refusal),
    }
}

// Writes the run file of lent parts. The setup and its range are asked first, then the records, then what the writer asks.
fn write_lent(note: &[u8], setup: &[u8], records: &[u8], out: &mut [u8]) -> Result<usize, Refusal>
    ensures { Reports (lent_refusal (length note.now) (setup_lent setup.now) (steps_lent records.now) (length out.old)) (lent_file note.now (setup_lent setup.now) (steps_lent records.now)) out.old out.new result }
{
    let setup = export_parts::setup_lent(setup)?;
    if !setup::in_range(setup) {
        return Err(Refusal::Setup);
    }
    let steps = export_parts::steps_lent(records)?;
    file_writer::write(note, setup, steps.as_slice(), out)
}

// Writes the run file of a workload with a lent setup, which is asked first.
fn workload_lent(
    seed: u32,
    note: &[u8],
    setup: &[u8],
    count: u32,
    out: &mut [u8],
) -> Result<usize, Refusal>
    ensures { Reports (workload_refusal (length note.now) (setup_lent setup.now) count (length out.old)) (workload_file seed note.now (setup_lent setup.now) count) out.old out.new result }
{
    let setup = export_parts::setup_lent(setup)?;
    workload::write(seed, note, setup, count, out)
}

// Writes the listing of a run file at the start of the output, and stores its length. Returns 9 for bytes that are not a run file, 8 for an output
// that is too short.
#[unsafe(no_mangle)]
pub extern "C" fn gevtsomi_list(file: &[u8], out: &mut [u8], written: &mut usize) -> u8
    ensures { Lists file.now out.old out.new written.old written.new result }
{
    status_of(run::list(file, out), written)
}

// Writes the run file of a note, a setup (48 bytes) and steps (records of 16 bytes) at the start of the output, and stores its length. Returns 7 for
// bytes that are not a setup in range; then 10 for a record that is not whole, more than 4,000 records, a step of a known kind with a nonzero unused
// field, a file of more than 65,536 bytes, or an output that is too short.
#[unsafe(no_mangle)]
pub extern "C" fn gevtsomi_write(
    note: &[u8],
    setup: &[u8],
    records: &[u8],
    out: &mut [u8],
    written: &mut usize,
) -> u8
    ensures { WritesFile note.now (setup_lent setup.now) (steps_lent records.now) out.old out.new written.old written.new result }
{
    status_of(write_lent(note, setup, records, out), written)
}

// Writes the run file of the first `count` steps of a seed at the start of the output, and stores its length. Returns 7 for bytes that are not a setup
// in range; then 10 for more than 4,000 steps, a file of more than 65,536 bytes, or an output that is too short.
#[unsafe(no_mangle)]
pub extern "C" fn gevtsomi_workload(
    seed: u32,
    note: &[u8],
    setup: &[u8],
    count: u32,
    out: &mut [u8],
    written: &mut usize,
) -> u8
    ensures { WritesWorkload seed note.now (setup_lent setup.now) count out.old out.new written.old written.new result }
{
    status_of(workload_lent(seed, note, setup, count, out), written)
}

// Writes the frame of the message with these fields, which are in the frame's order; those that its kind lacks must be 0. Returns 8 for fields that no
// message has or an output that is too short.
#[unsafe(no_mangle)]
pub extern "C" fn gevtsomi_encode(
    head: &[u8; 4],
    numbers: &[u32; 5],
    value: u64,
    out: &mut [u8],
) -> u8
    ensures { EncodesFields (fields_from head.now numbers.now value) out.old out.new result }
{
    export_frames::encode(head, numbers, value, out)
}

// Stores the ten fields of a frame's message, in the frame's order. Returns 8 for bytes that are not a frame or room for fewer than ten numbers.
#[unsafe(no_mangle)]
pub extern "C" fn gevtsomi_decode(frame: &[u8], fields: &mut [u64]) -> u8
    ensures { DecodesFields frame.now fields.old fields.new result }
{
    export_frames::decode(frame, fields)
}

// Returns 0 or the refusal's number. If the run was read, stores the reason and the step of its event, which are both 0 where there is none.
fn tell(explanation: Result<Option<Reason>, Refusal>, reason: &mut u8, event: &mut u32) -> u8
    ensures number { result ≡ refused_by explanation }
    ensures reason { reason.new ≡ reason_after explanation reason.old }
    ensures event { event.new ≡ event_after explanation event.old }
{
    match explanation {
        Ok(Some(r)) => {
            *reason = u8::from(r.why);
            *event = r.step;
            0
        }
        Ok(None) => {
            *reason = 0;
            *event = 0;
            0
        }
        Err(no) => u8::from(no),
    }
}

// Stores why a step of a run file, by its number from 1, was answered "ask first", 1 to 6, and the number of the event's step or 0; both are 0 for any
// other step. Returns 9 for bytes that are not a run file.
#[unsafe(no_mangle)]
pub extern "C" fn gevtsomi_why(file: &[u8], step: u32, reason: &mut u8, event: &mut u32) -> u8
    ensures { TellsWhy file.now step reason.old reason.new event.old event.new result }
{
    tell(reason::why(file, step), reason, event)
}
