// Two slices compared, place by place, up to the first that differs.
ghost use Rattle.std.specs.Prelude.{◌≡◌};
ghost use Rattle.std.specs.Cmp.Lexicographic.{pointwise};

// The slices are equal.
// As it is: (b) no `==`, which goes on over a group of elements behind the first that differs, in a call: a replay among entries whose lists
// differ in their second or third place took half as long again or twice as long.
pub fn same<T: PartialEq>(one: &[T], other: &[T]) -> bool
    ensures { result ≡ pointwise T.eq one.now other.now }
{
    if one.len() != other.len() {
        return false;
    }
    for (i, own) in one.iter().enumerate() {
        if *own != other[i] {
            return false;
        }
    }
    true
}
