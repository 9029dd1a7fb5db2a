// A label compared with that of a statement.
ghost use Rattle.std.specs.Prelude.{◌≡◌, ◌+◌, ◌≤◌, length};
ghost use Rattle.laws.specs.Tools.{same};
ghost use Rattle.defs.specs.Table.{label_start_in, label_length_in, label_in};
ghost use Rattle.table.specs.Records.{StatementIn};

use table::StatementNo;
use table::statements::label_of;

// Statement j has this label. Lengths are compared before bytes.
#[tactic(auto, using(laws::specs::Library::pointwise_same))]
pub fn has_label(statements: &[u32], labels: &[u8], j: StatementNo, label: &[u8]) -> bool
    requires statement_in { StatementIn statements.now j.0 }
    requires j_in_bounds { label_start_in statements.now j.0 + label_length_in statements.now j.0 ≤ length labels.now }
    ensures { result ≡ same (label_in statements.now labels.now j.0) label.now }
{
    label_of(statements, labels, j) == label
}
