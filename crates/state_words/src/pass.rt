// Fills a part of a list.
ghost use Rattle.std.specs.Prelude.{◌≡◌, ◌+◌, ◌≤◌, length};
ghost use Rattle.state_words.specs.Fields.{filled};

// Sets the n items from `field` on to `item`.
pub fn fill<T: Copy>(list: &mut [T], field: usize, n: usize, item: T)
    requires { field + n ≤ length list.old }
    ensures { list.new ≡ filled field n item list.old }
{
    for i in 0..n {
        list[field + i] = item;
    }
}
