// An entry's place among those built: that of an exactly equal one, or a new one behind them.
ghost use Rattle.std.specs.Prelude.{◌≡◌, not, ◌+◌, ◌≤◌, length, take};
ghost use Rattle.defs.specs.Table.{entry_size, max_references, max_child_refs};
ghost use Rattle.store.specs.Store.{full};
ghost use Rattle.store.specs.Places.{StoreOk, Appended, place_of, Kept, place};

use crate::lookup::find_entry;
use slices::copy::copy;
use table::limits::{ENTRY_WORDS, MAX_CHILD_REFS, MAX_ENTRIES};
use table::{EntryNo, StatementNo};

// How much of the two outputs is built: words of entries, and references.
// As it is: (a) no heap. The outputs are slices lent by the caller of a replay, and what is built is the front of each.
#[derive(Clone, Copy, Debug, PartialEq, Eq)]
pub struct Store {
    pub built: usize,
    pub kids: usize,
}

// An entry that has its place, and what is built with it.
#[derive(Clone, Copy, Debug, PartialEq, Eq)]
pub struct Placed {
    pub entry: EntryNo,
    pub store: Store,
}

// 15: an entry to be appended, 3 words, or its children do not fit what is left of their slices, or would pass n's or c's limit.
#[tactic(auto, unfolding(crate::specs::Store::full))]
fn has_room(entries: usize, children: usize, store: Store, count: usize) -> bool
    requires { (store.built + entry_size ≤ max_references) × ((store.kids ≤ max_child_refs) × (count ≤ max_references)) }
    ensures { result ≡ not (full entries children store.built store.kids count) }
{
    let kids = store.kids + count;
    store.built + ENTRY_WORDS <= entries
        && kids <= children
        && store.built / ENTRY_WORDS < MAX_ENTRIES as usize
        && kids <= MAX_CHILD_REFS as usize
}

#[tactic(auto, using(crate::proofs::PlaceLaws::entry_words_lem))]
fn append(
    statement: StatementNo,
    wanted: &[u32],
    entries: &mut [u32],
    children: &mut [u32],
    store: Store,
) -> Store
    requires entry_size_in_bounds { (store.built + entry_size ≤ length entries.old) × (store.kids + length wanted.now ≤ length children.old) }
    requires kids_le_max_child_refs { (store.kids ≤ max_child_refs) × (length wanted.now ≤ max_references) }
    ensures { Appended statement.0 wanted.now entries.old children.old store entries.new children.new result }
{
    let at = store.built;
    let kids = store.kids;
    entries[at] = statement.0;
    entries[at + 1] = kids as u32;
    entries[at + 2] = wanted.len() as u32;
    let end = kids + wanted.len();
    copy(&mut children[kids..end], wanted);
    Store {
        built: at + ENTRY_WORDS,
        kids: end,
    }
}

// Finds an exactly equal entry or appends one. None: there is no room for it.
#[tactic(auto, using(crate::proofs::PlaceLaws::few_built, crate::proofs::PlaceLaws::roomy))]
pub fn find_or_append(
    statement: StatementNo,
    wanted: &[u32],
    entries: &mut [u32],
    children: &mut [u32],
    store: Store,
) -> Option<Placed>
    requires store_ok { StoreOk entries.old children.old store }
    requires wanted_len_bound { length wanted.now ≤ max_references }
    ensures { (place_of entries.new children.new result
        ≡ place (take store.built entries.old) (take store.kids children.old) (length entries.old) (length children.old) statement.0 wanted.now)
        × Kept entries.new children.new result }
{
    let n = store.built / ENTRY_WORDS;
    if let Some(entry) = find_entry(
        &entries[..store.built],
        &children[..store.kids],
        statement,
        wanted,
    ) {
        return Some(Placed { entry, store });
    }
    if !has_room(entries.len(), children.len(), store, wanted.len()) {
        return None;
    }
    let more = append(statement, wanted, entries, children, store);
    Some(Placed {
        entry: EntryNo(n as u32),
        store: more,
    })
}
