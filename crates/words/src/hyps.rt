// The label of the hypothesis that a step stands for.
ghost use Rattle.std.specs.Prelude.{◌≡◌};
ghost use Rattle.walk.specs.Hyps.{parent_of, index_of};
ghost use Rattle.words.specs.Spelled.{hyp_statement, hyp_span, HypReady};

use crate::spans::{Span, label_span};
use table::StatementNo;
use table::statements::{hyp_start, hypothesis};
use walk::hyps::ParentHyp;

// Its place in the list of its parent; at the root, the theorem.
fn hyp_statement(
    statements: &[u32],
    hyps: &[u32],
    theorem: StatementNo,
    hyp: ParentHyp,
) -> StatementNo
    requires { HypReady statements.now hyps.now theorem.0 (parent_of hyp) (index_of hyp) }
    ensures { result.0 ≡ hyp_statement statements.now hyps.now theorem.0 (parent_of hyp) (index_of hyp) }
{
    let ParentHyp::Of { statement, index } = hyp else {
        return theorem;
    };
    hypothesis(hyps, hyp_start(statements, statement) + index as usize)
}

// None unless the list is explicit.
pub fn hyp_span(
    statements: &[u32],
    hyps: &[u32],
    theorem: StatementNo,
    explicit: bool,
    hyp: ParentHyp,
) -> Option<Span>
    requires { HypReady statements.now hyps.now theorem.0 (parent_of hyp) (index_of hyp) }
    ensures { result ≡ hyp_span statements.now hyps.now theorem.0 explicit (parent_of hyp) (index_of hyp) }
{
    if explicit {
        Some(label_span(statements, hyp_statement(statements, hyps, theorem, hyp)))
    } else {
        None
    }
}
