// Any ending past test 14 leaves the working slice all zero, whatever was lent.
ghost use Rattle.std.specs.Prelude.{◌≡◌};
ghost use Rattle.laws.specs.Tools.{zeroed};

use answers::Refusal;

// The answer of an operation whose work has begun.
pub fn ended(work: &mut [u32], answer: Result<usize, Refusal>) -> Result<usize, Refusal>
    ensures { (result ≡ answer) × (work.new ≡ zeroed work.old) }
{
    work.fill(0);
    answer
}
