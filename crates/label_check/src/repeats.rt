// The search for two equal labels.
ghost use Rattle.std.specs.Prelude.{◌≡◌};
ghost use Rattle.laws.specs.Tools.{some_below};
ghost use Rattle.defs.specs.Check.{label_again};
ghost use Rattle.label_check.specs.Right.{LabelsRight};

use crate::buckets::{BUCKETS, fall_of, first_compared, mark_after};
use crate::equal::has_label;
use table::StatementNo;
use table::statements::label_of;

// Two statements have equal labels: pairs are searched, and both loops are left at the first hit. The later label of a pair is cut
// once for each outer turn. Where its bucket shows that no label before it is equal, it is compared with none.
pub fn label_repeated(statements: &[u32], count: u32, labels: &[u8]) -> bool
    requires { LabelsRight statements.now labels.now count }
    ensures { result ≡ some_below (label_again statements.now labels.now) count }
{
    let mut marks = [0u8; BUCKETS];
    let mut found = false;
    'search: for k in 0..count {
        let label = label_of(statements, labels, StatementNo(k));
        let fall = fall_of(label);
        let bucket = fall.bucket;
        let mark = marks[bucket];
        for j in first_compared(mark, fall.print, k)..k {
            if has_label(statements, labels, StatementNo(j), label) {
                found = true;
                break 'search;
            }
        }
        marks[bucket] = mark_after(mark, fall.print);
    }
    found
}
