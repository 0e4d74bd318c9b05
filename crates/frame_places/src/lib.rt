// Reads and writes a message's fields in the 32 bytes of a frame.
#![tactic(auto)]

ghost use Rattle.std.specs.Prelude.{◌≤◌, ◌≡◌, length};
ghost use Rattle.bytes_layout.specs.Number.{Stored};
ghost use Rattle.frame_places.specs.Places.{FRAME, head, numbers, laid, fields_in};

use message_fields::Fields;

// the bytes of a frame
pub const FRAME: usize = 32;

// Returns the fields as they are, without checking that they make a message: "kind .., dash, object .., value present .., number, volume expiry, epoch,
// version, object expiry; value in 8 bytes".
// Kept: here and in `write` the numbers go by `bytes_layout`, where their bytes are read and written.
pub fn read(bytes: &[u8]) -> Fields
    requires { FRAME ≤ length bytes.now }
    ensures { result ≡ fields_in bytes.now }
{
    Fields {
        kind: bytes[0],
        client: bytes[1],
        object: bytes[2],
        present: bytes[3],
        number: bytes_layout::read_u32(bytes, 4),
        volume_expiry: bytes_layout::read_u32(bytes, 8),
        epoch: bytes_layout::read_u32(bytes, 12),
        version: bytes_layout::read_u32(bytes, 16),
        object_expiry: bytes_layout::read_u32(bytes, 20),
        value: bytes_layout::read_u64(bytes, 24),
    }
}

// Writes "kind .., dash, object .., value present .., one byte each".
fn write_head(out: &mut [u8], f: Fields)
    requires { 4 ≤ length out.old }
    ensures { Stored out.old out.new 0 (head f) }
{
    bytes_layout::write_four(out, 0, f.kind, f.client, f.object, f.present);
}

// Writes "number, volume expiry, epoch, version, object expiry", in 4 bytes each.
fn write_numbers(out: &mut [u8], f: Fields)
    requires { 24 ≤ length out.old }
    ensures { Stored out.old out.new 4 (numbers f) }
{
    bytes_layout::write_u32(out, 4, f.number);
    bytes_layout::write_u32(out, 8, f.volume_expiry);
    bytes_layout::write_u32(out, 12, f.epoch);
    bytes_layout::write_u32(out, 16, f.version);
    bytes_layout::write_u32(out, 20, f.object_expiry);
}

// Writes all ten fields to the first 32 bytes of the output, the last a "value in 8 bytes".
pub fn write(out: &mut [u8], f: Fields)
    requires { FRAME ≤ length out.old }
    ensures { Stored out.old out.new 0 (laid f) }
{
    write_head(out, f);
    write_numbers(out, f);
    bytes_layout::write_u64(out, 24, f.value);
}
