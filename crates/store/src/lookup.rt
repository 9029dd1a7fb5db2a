// The lowest entry exactly equal to the one asked for: its statement, and its children in order. A plain scan. No caller knows how
// it looks, so an index can take its place.
ghost use Rattle.std.specs.Prelude.{◌≡◌, ◌+◌, ◌≤◌, ◌/◌, length};
ghost use Rattle.defs.specs.Table.{entry_size, child_start_in, child_count_in};
ghost use Rattle.defs.specs.Replay.{lookup};
ghost use Rattle.table.specs.Records.{EntryIn};
ghost use Rattle.store.specs.Store.{holding, BuiltOk, is_entry, entry_below};

use slices::same::same;
use table::entries::{children_of, statement_of};
use table::limits::ENTRY_WORDS;
use table::{EntryNo, StatementNo};

#[tactic(auto, using(laws::specs::Library::pointwise_same), unfolding(crate::specs::Store::is_entry))]
fn is_entry(built: &[u32], kids: &[u32], e: EntryNo, statement: StatementNo, wanted: &[u32]) -> bool
    requires entry_in { EntryIn built.now e.0 }
    requires e_in_bounds { child_start_in built.now e.0 + child_count_in built.now e.0 ≤ length kids.now }
    ensures { result ≡ is_entry built.now kids.now statement.0 wanted.now e.0 }
{
    statement_of(built, e) == statement && same(children_of(built, kids, e), wanted)
}

// None: no entry is equal. A function of its own also in what is built, where the scan then has the registers to itself.
#[inline(never)]
pub fn find_entry(
    built: &[u32],
    kids: &[u32],
    statement: StatementNo,
    wanted: &[u32],
) -> Option<EntryNo>
    requires { BuiltOk built.now kids.now }
    ensures { result ≡ entry_below (length built.now / entry_size) (lookup (holding built.now kids.now) statement.0 wanted.now) }
{
    let n = (built.len() / ENTRY_WORDS) as u32;
    for e in 0..n {
        if is_entry(built, kids, EntryNo(e), statement, wanted) {
            return Some(EntryNo(e));
        }
    }
    None
}
