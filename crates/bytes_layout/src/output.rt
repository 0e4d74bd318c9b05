// Copies bytes to a lent output. A call that writes to one returns the number of bytes written, or why it is refused (01, 02): `Result<usize, Refusal>`,
// whose number and length are `report_number` and `report_length` of specs/Report.antt.
ghost use Rattle.std.specs.Prelude.{◌+◌, ◌≤◌, length};
ghost use Rattle.bytes_layout.specs.Written.{Written};

// Copies the bytes to `out` from `at` on. Returns the offset after the last one.
pub fn write_bytes(out: &mut [u8], at: usize, bytes: &[u8]) -> usize
    requires { at + length bytes.now ≤ length out.old }
    ensures { Written out.old out.new at bytes.now result }
{
    let end = at + bytes.len();
    out[at..end].copy_from_slice(bytes);
    end
}
