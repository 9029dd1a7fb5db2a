// Normal walk: no marks, everything repeated. It is taken step by step. Its stack stands in lent words, a pair for each entry on the way
// down from the root: the entry, and which child is next.
ghost use Rattle.std.specs.Prelude.{◌≡◌, ◌+◌, ◌*◌, ◌≤◌, ◌<◌, length};
ghost use Rattle.walk.specs.Entries.{size, Entries};
ghost use Rattle.walk.specs.Hyps.{parent_of, index_of};
ghost use Rattle.walk.specs.Normal.{pair_size, Stacked, Begins, parent_at, index_at, left, came};

use crate::hyps::{ParentHyp, child_hyp};
use table::entries::{child, child_count, child_start, statement_of};
use table::{EntryNo, StatementNo};

pub const PAIR_WORDS: usize = 2;

// A step that was taken, with the depth of the stack after it.
#[derive(Clone, Copy, Debug, PartialEq, Eq)]
pub struct Taken {
    pub statement: StatementNo,
    pub hyp: ParentHyp,
    pub depth: usize,
}

// The walk from root is to come: the stack is one pair deep.
pub fn begin(entries: &[u32], children: &[u32], stack: &mut [u32], root: EntryNo)
    requires entries { Entries entries.now children.now }
    requires root_bound { (root.0 < size entries.now) × (pair_size * size entries.now ≤ length stack.old) }
    ensures { Begins entries.now children.now root.0 stack.new }
{
    stack[0] = root.0;
    stack[1] = 0;
}

// What the step of the pair at `top` carries: it is a child of the pair below, whose next child is already the one after.
fn top_hyp(entries: &[u32], stack: &[u32], explicit: bool, top: usize) -> ParentHyp
    requires { Stacked entries.now stack.now (top + 1) }
    ensures { (parent_of result ≡ parent_at entries.now explicit stack.now top) × (index_of result ≡ index_at explicit stack.now top) }
{
    if top == 0 {
        return ParentHyp::Root;
    }
    let below = PAIR_WORDS * (top - 1);
    child_hyp(
        entries,
        explicit,
        EntryNo(stack[below]),
        stack[below + 1] - 1,
    )
}

// The next step; none where none is left. An entry whose children are all listed is next itself; else its next child goes on the stack,
// which leaves what is to come as it was.
pub fn next(
    entries: &[u32],
    children: &[u32],
    stack: &mut [u32],
    explicit: bool,
    depth: usize,
) -> Option<Taken>
    requires entries { Entries entries.now children.now }
    requires stacked { Stacked entries.now stack.old depth }
    ensures { came entries.now children.now explicit
        (left entries.now children.now explicit stack.old depth) stack.new result }
{
    if depth == 0 {
        return None;
    }
    let mut top = depth - 1;
    loop {
        let at = PAIR_WORDS * top;
        let e = EntryNo(stack[at]);
        let k = stack[at + 1];
        if child_count(entries, e) <= k as usize {
            return Some(Taken {
                statement: statement_of(entries, e),
                hyp: top_hyp(entries, &stack[..], explicit, top),
                depth: top,
            });
        }
        let c = child(children, child_start(entries, e) + k as usize);
        stack[at + 1] = k + 1;
        stack[at + 2] = c.0;
        stack[at + 3] = 0;
        top += 1;
    }
}
