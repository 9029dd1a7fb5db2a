// First by first appearance, then stably non-assertions first: one pass keeps one kind, in order.
ghost use Rattle.listing.specs.Kinds.{OneReady, OneKept, ListReady, Kept};

use table::statements::kind_of;
use table::{Kind, StatementNo};

// Keeps the statement that stands at `at` where it is wanted, an assertion or else none: it goes to `end`. Answers the new end.
fn keep_one(statements: &[u32], work: &mut [u32], at: usize, end: usize, assertions: bool) -> usize
    requires { OneReady statements.now at end work.old }
    ensures { OneKept statements.now assertions at end result work.old work.new }
{
    let k = work[at];
    let is_assertion = kind_of(statements, StatementNo(k)) == Some(Kind::Assertion);
    if is_assertion == assertions {
        work[end] = k;
        return end + 1;
    }
    end
}

// Keeps the statements of a list that stands from `at` on; they go from `to` on. Answers where they end.
pub fn keep_kind(
    statements: &[u32],
    work: &mut [u32],
    at: usize,
    many: usize,
    to: usize,
    assertions: bool,
) -> usize
    requires { ListReady statements.now at many to work.old }
    ensures { Kept statements.now assertions at many to result work.old work.new }
{
    let mut end = to;
    for i in 0..many {
        end = keep_one(statements, work, at + i, end, assertions);
    }
    end
}
