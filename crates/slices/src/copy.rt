// A slice copied into another of the same length.
ghost use Rattle.std.specs.Prelude.{◌≡◌, length};

// As it is: (a) the C interface; a loop and no `copy_from_slice`, for which the archive would need a memmove of whoever links it.
pub fn copy<T: Copy>(target: &mut [T], source: &[T])
    requires { length target.old ≡ length source.now }
    ensures { target.new ≡ source.now }
{
    for (i, item) in source.iter().enumerate() {
        target[i] = *item;
    }
}
