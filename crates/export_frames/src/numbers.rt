// Converts a message's fields to and from ten numbers in the frame's order, for callers from other languages.
ghost use Rattle.std.specs.Prelude.{◌≤◌, ◌≡◌, length};
ghost use Rattle.std.proofs.lemmas.List.Edits.{sets};
ghost use Rattle.export_frames.specs.Numbers.{numbers_of, fields_from};

use message_fields::Fields;

// Returns the ten fields, in the frame's order.
// Kept: a function, since Rust takes no `From` between two types of other crates.
fn numbers_of(f: Fields) -> [u64; 10]
    ensures { result ≡ numbers_of f }
{
    [
        u64::from(f.kind),
        u64::from(f.client),
        u64::from(f.object),
        u64::from(f.present),
        u64::from(f.number),
        u64::from(f.volume_expiry),
        u64::from(f.epoch),
        u64::from(f.version),
        u64::from(f.object_expiry),
        f.value,
    ]
}

// Stores the ten fields in the first ten numbers of the output.
pub fn store(out: &mut [u64], f: Fields)
    requires { 10 ≤ length out.old }
    ensures { out.new ≡ sets out.old 0 (numbers_of f) }
{
    out[..10].copy_from_slice(&numbers_of(f));
}

// Returns the fields given by a frame's head, its five numbers and its value.
pub fn fields_from(head: &[u8; 4], numbers: &[u32; 5], value: u64) -> Fields
    ensures { result ≡ fields_from head.now numbers.now value }
{
    Fields {
        kind: head[0],
        client: head[1],
        object: head[2],
        present: head[3],
        number: numbers[0],
        volume_expiry: numbers[1],
        epoch: numbers[2],
        version: numbers[3],
        object_expiry: numbers[4],
        value,
    }
}
