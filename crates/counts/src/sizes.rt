// The number of normal steps of every entry: everything is repeated, so an entry has one step and those of each of its children.
// It can be far more than a word holds. Refusal 13 asks only whether it is over 1,000,000, so a count stops just past that.
ghost use Rattle.std.specs.Prelude.{◌≡◌, ◌+◌, ◌≤◌, min, length};
ghost use Rattle.laws.specs.Tools.{over};
ghost use Rattle.defs.specs.Graph.{graph_in};
ghost use Rattle.defs.specs.Sections.{EntriesOk};
ghost use Rattle.counts.specs.Sizes.{size_cap, capped_size, capped_sizes, ChildrenSized};

use table::EntryNo;
use table::entries::children_of;

// One more than the most steps of a normal list.
pub const SIZE_CAP: u32 = 1000001;

fn add_capped(a: u32, b: u32) -> u32
    requires { (a ≤ size_cap) × (b ≤ size_cap) }
    ensures { result ≡ min size_cap (a + b) }
{
    SIZE_CAP.min(a + b)
}

// The entry's own step, and those of its children.
fn size_of(entries: &[u32], children: &[u32], sizes: &[u32], e: EntryNo) -> u32
    requires { ChildrenSized entries.now children.now sizes.now e.0 }
    ensures { result ≡ capped_size (graph_in entries.now children.now) e.0 }
{
    let kids = children_of(entries, children, e);
    let mut size: u32 = 1;
    for c in kids {
        size = add_capped(size, sizes[*c as usize]);
    }
    size
}

// Of the first n entries, each after its children: they lie below it.
pub fn count_normal(entries: &[u32], children: &[u32], n: usize, sizes: &mut [u32])
    requires entries_ok { EntriesOk entries.now children.now n }
    requires n_in_bounds { n ≤ length sizes.old }
    ensures { sizes.new ≡ over (capped_sizes (graph_in entries.now children.now) n) sizes.old }
{
    for e in 0..n {
        let size = size_of(entries, children, &sizes[..], EntryNo(e as u32));
        sizes[e] = size;
    }
}
