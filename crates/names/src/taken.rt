// Which numbers are labels in the table.
ghost use Rattle.std.specs.Prelude.{◌≡◌, ◌≤◌, length};
ghost use Rattle.defs.specs.Sections.{StatementsOk};
ghost use Rattle.names.specs.Decimals.{cap};
ghost use Rattle.names.specs.Taken.{statements_in, with_label, taken_by};

use crate::number::{is_decimal, number_of};
use table::StatementNo;
use table::limits::STATEMENT_WORDS;
use table::statements::label_of;

// 1 at the number that this label is, if it is one.
fn mark_label(label: &[u8], taken: &mut [u32])
    requires { length taken.old ≤ cap }
    ensures { taken.new ≡ with_label label.now taken.old }
{
    let number = number_of(label);
    let at = number as usize;
    if at < taken.len() && is_decimal(label, number) {
        taken[at] = 1;
    }
}

// 1 at each number that is a label, 0 at each that is not. One look at each label does for all numbers.
pub fn mark_taken(statements: &[u32], labels: &[u8], taken: &mut [u32])
    requires statements_ok { StatementsOk statements.now labels.now (statements_in statements.now) }
    requires taken_len_bound { length taken.old ≤ cap }
    ensures { taken.new
        ≡ taken_by statements.now labels.now (statements_in statements.now) (length taken.old) }
{
    taken.fill(0); // the slice may hold anything at first
    let count = (statements.len() / STATEMENT_WORDS) as u32;
    for k in 0..count {
        mark_label(label_of(statements, labels, StatementNo(k)), taken);
    }
}
