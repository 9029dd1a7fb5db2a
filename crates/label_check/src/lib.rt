// Test 3 of the table's check: the label bytes, and two equal labels.
#![tactic(auto)]

mod buckets; // buckets.rt: labels told apart by a hash of their bytes
mod bytes; // bytes.rt: which bytes a label may have
mod equal; // equal.rt: a label compared with that of a statement
mod repeats; // repeats.rt: the search for two equal labels

ghost use Rattle.std.specs.Prelude.{◌≡◌, ◌||◌};
ghost use Rattle.laws.specs.Tools.{some_below};
ghost use Rattle.defs.specs.Check.{label_wrong, label_again};
ghost use Rattle.label_check.specs.Right.{LabelsRight};

use bytes::bytes_right;
use repeats::label_repeated;

// A label byte other than letter, digit, `.`, `-`, `_`; or two equal labels. Labels fill the slice, so every byte is one of a label.
pub fn labels_wrong(statements: &[u32], count: u32, labels: &[u8]) -> bool
    requires { LabelsRight statements.now labels.now count }
    ensures { result ≡ (some_below (label_wrong statements.now labels.now) count
        || some_below (label_again statements.now labels.now) count) }
{
    !bytes_right(labels) || label_repeated(statements, count, labels)
}
