// Listed: statements of normal steps in the packed list, not in the theorem's list; first by first appearance, then stably
// non-assertions first.
ghost use Rattle.listing.specs.Listing.{AllReady, Listed};

use crate::clear::clear;
use crate::kinds::keep_kind;
use crate::numbers::number_theorem;
use crate::uses::use_steps;

// The packed list stands from `steps` on, the arrays of the s statements from `from` on. Answers how many statements are listed.
pub fn list_statements(
    statements: &[u32],
    theorem: &[u32],
    work: &mut [u32],
    steps: usize,
    many: usize,
    from: usize,
    s: usize,
) -> usize
    requires { AllReady statements.now theorem.now steps many from s work.old }
    ensures { Listed statements.now theorem.now steps many from s result work.old work.new }
{
    let firsts = from + 2 * s;
    clear(work, from, firsts);
    number_theorem(theorem, work, s, from);
    let listed = use_steps(work, steps, many, s, from);
    let middle = keep_kind(statements, work, firsts, listed, from + 3 * s, false);
    keep_kind(statements, work, firsts, listed, middle, true);
    listed
}
