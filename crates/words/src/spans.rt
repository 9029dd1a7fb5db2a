// Where a label lies among the label bytes.
ghost use Rattle.std.specs.Prelude.{◌≡◌};
ghost use Rattle.table.specs.Records.{StatementIn};
ghost use Rattle.words.specs.Spelled.{span_of};

use table::StatementNo;
use table::statements::{label_length, label_start};

// As it is: (d) a slice in its place would lend each word the label bytes, also where it is only measured, which asks for none.
#[derive(Clone, Copy, Debug, PartialEq, Eq)]
pub struct Span {
    pub start: usize,
    pub length: usize,
}

pub fn label_span(statements: &[u32], k: StatementNo) -> Span
    requires { StatementIn statements.now k.0 }
    ensures { result ≡ span_of statements.now k.0 }
{
    Span {
        start: label_start(statements, k),
        length: label_length(statements, k),
    }
}
