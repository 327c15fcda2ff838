// Copies of lists over the fronts of others.
ghost use Rattle.std.specs.Prelude.{◌≡◌, ◌≤◌, ◌++◌, length, drop};

// Writes a list over as many of the first entries of another.
pub(crate) fn write_over<T: Copy>(list: &mut [T], front: &[T])
    requires { length front.now ≤ length list.old }
    ensures { list.new ≡ front.now ++ drop (length front.now) list.old }
{
    list[..front.len()].copy_from_slice(front);
}
