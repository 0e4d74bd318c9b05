// Reads and stores one record of a lent list, of copies or of requests.
ghost use Rattle.std.specs.Prelude.{◌≡◌, get_or, set};

// Returns the record at index i, or `none` if i is past the end.
pub fn look<T: Copy + Drop>(records: &[T], i: usize, none: T) -> T
    ensures { result ≡ get_or records.now i none }
{
    records.get(i).copied().unwrap_or(none)
}

// Stores a record at index i, or does nothing if i is past the end.
// Kept: an index below the length is as plain as `get_mut`, with which the check leaves both arms open.
pub fn store<T: Copy + Drop>(records: &mut [T], i: usize, x: T)
    ensures { records.new ≡ set records.old i x }
{
    if i < records.len() {
        records[i] = x;
    }
}
