// Moving words or values of one field down, to close a gap.
ghost use Rattle.std.specs.Prelude.{◌≡◌, ◌+◌, ◌≤◌, length};
ghost use Rattle.network_rows.specs.Shift.{shifting_of};

// Moves n elements of the field down by `wide` places, to start at `from`.
pub fn shift<T: Copy>(list: &mut [T], field: usize, from: usize, n: usize, wide: usize)
    requires { field + (from + n + wide) ≤ length list.old }
    ensures { (d : T) → list.new ≡ shifting_of d field from n wide list.old }
{
    let start = field + from;
    list.copy_within(start + wide..start + wide + n, start);
}
