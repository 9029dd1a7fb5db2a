// A list of numbers in which one repeats.
ghost use Rattle.std.specs.Prelude.{◌≡◌};
ghost use Rattle.laws.specs.Tools.{repeats};

// Some number stands twice: one of them stands again behind its first place.
pub fn repeats(list: &[u32]) -> bool
    ensures { result ≡ repeats list.now }
{
    for i in 0..list.len() {
        if list[i + 1..].contains(&list[i]) {
            return true;
        }
    }
    false
}
