// The number that letters spell. It has no bound, so what the code keeps of the leading letters is capped where no
// letter can finish a number of 32 bits any more: nothing wraps, and every number that fits is exact.
ghost use Rattle.std.specs.Prelude.{◌≡◌, ◌+◌, ◌*◌};
ghost use Rattle.letters.specs.Numbers.{capped, number_of};

// The least value of leading letters whose number passes 32 bits whatever letter finishes it.
const CAP: u64 = 214748365;

// The value of the leading letters after one more, with the digit of that one.
pub fn lead(pending: u32, digit: u32) -> u32
    ensures { result ≡ capped (pending * 5 + digit) }
{
    let next = pending as u64 * 5 + digit as u64;
    next.min(CAP) as u32
}

// The number of a code after its last letter, with the digit of that one; none where it is too large for 32 bits.
pub fn finish(pending: u32, digit: u32) -> Option<u32>
    ensures { result ≡ number_of (pending * 20 + digit) }
{
    let number = pending as u64 * 20 + digit as u64;
    u32::try_from(number).ok()
}
