// The names of all marks, computed once: the name of mark m is the next number past the name before it that is no label.
ghost use Rattle.std.specs.Prelude.{◌≤◌, length};
ghost use Rattle.defs.specs.Table.{max_entries};
ghost use Rattle.defs.specs.Sections.{StatementsOk};
ghost use Rattle.names.specs.Decimals.{cap};
ghost use Rattle.names.specs.Taken.{statements_in};
ghost use Rattle.names.specs.Named.{names_length, Named, NamesLeft};

use crate::taken::mark_taken;
use table::limits::STATEMENT_WORDS;

// A name is never below its mark, so the names take the places of numbers that were tried already: one slice does for both.
fn name_marks(statements: &[u32], labels: &[u8], count: usize, names: &mut [u32])
    requires statements_ok { StatementsOk statements.now labels.now (statements_in statements.now) }
    requires count_in_bounds { (names_length statements.now count ≤ length names.old) × (length names.old ≤ cap) }
    ensures { Named statements.now labels.now count names.new }
{
    mark_taken(statements, labels, names);
    let mut mark: usize = 0;
    for number in 1..names.len() {
        if mark == count {
            return;
        }
        if names[number] == 0 {
            mark += 1;
            names[mark] = number as u32;
        }
    }
}

// Leaves the name of mark m at place m, for m from 1 to `count`. It works in the first count + s + 1 words, and changes no other.
pub fn mark_names(statements: &[u32], labels: &[u8], count: usize, names: &mut [u32])
    requires statements_ok { StatementsOk statements.now labels.now (statements_in statements.now) }
    requires count_le_max_entries { (count ≤ max_entries) × (names_length statements.now count ≤ length names.old) }
    ensures { NamesLeft statements.now labels.now count names.old names.new }
{
    let end = count + statements.len() / STATEMENT_WORDS + 1;
    name_marks(statements, labels, count, &mut names[..end])
}
