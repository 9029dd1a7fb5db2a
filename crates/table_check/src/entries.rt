// Tests 5 and 6: the entry records, and the children.
ghost use Rattle.std.specs.Prelude.{◌≡◌, not, ◌*◌, length, ltb};
ghost use Rattle.laws.specs.Tools.{all, all_of, all_below};
ghost use Rattle.defs.specs.Table.{stmt_size, entry_size};
ghost use Rattle.defs.specs.Check.{entry_rules, entries_rules, children_below};
ghost use Rattle.table.specs.Records.{EntryIn};
ghost use Rattle.table_check.specs.Right.{ChildrenBefore, ChildrenRight};

use table::EntryNo;
use table::entries::{child_count, child_start, children_of, statement_of};
use table::statements::hyp_count;

// Entry e keeps its line, `taken` being the children of the entries before it. Children past the end of their place are
// seen here, so that the running sum does not grow past it.
fn entry_right(
    statements: &[u32],
    count: u32,
    entries: &[u32],
    e: EntryNo,
    taken: usize,
    child_refs: usize,
) -> bool
    requires statements_len { length statements.now ≡ stmt_size * count }
    requires entry_in { EntryIn entries.now e.0 }
    requires children_before { ChildrenBefore entries.now child_refs e.0 taken }
    ensures { result ≡ all_of (entry_rules statements.now entries.now count child_refs e.0) }
{
    let statement = statement_of(entries, e);
    if count <= statement.0 {
        return false;
    }
    if child_start(entries, e) != taken {
        return false;
    }
    let children = child_count(entries, e);
    if children != hyp_count(statements, statement) {
        return false;
    }
    children <= child_refs - taken
}

// An entry record breaks its line, or c is not filled exactly.
pub fn entries_wrong(
    statements: &[u32],
    count: u32,
    entries: &[u32],
    entry_count: u32,
    child_refs: usize,
) -> bool
    requires statements_len { length statements.now ≡ stmt_size * count }
    requires entries_len { length entries.now ≡ entry_size * entry_count }
    ensures { result ≡ not (all_of (entries_rules statements.now entries.now count entry_count child_refs)) }
{
    let mut taken: usize = 0;
    for e in 0..entry_count {
        if !entry_right(statements, count, entries, EntryNo(e), taken, child_refs) {
            return true;
        }
        taken += child_count(entries, EntryNo(e));
    }
    taken != child_refs
}

// Every child of a list lies below its parent.
fn all_below(children: &[u32], parent: EntryNo) -> bool
    ensures { result ≡ all (λ c. ltb c parent.0) children.now }
{
    for c in children {
        if parent.0 <= *c {
            return false;
        }
    }
    true
}

// A child not below its parent.
pub fn children_wrong(entries: &[u32], entry_count: u32, children: &[u32]) -> bool
    requires { ChildrenRight entries.now children.now entry_count }
    ensures { result ≡ not (all_below (children_below entries.now children.now) entry_count) }
{
    for e in 0..entry_count {
        if !all_below(children_of(entries, children, EntryNo(e)), EntryNo(e)) {
            return true;
        }
    }
    false
}
