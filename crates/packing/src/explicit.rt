// The packed walk of an explicit list, two functions in turn as in crate::plain: the step of a child carries the statement of its parent
// and its own place among the children.
// As it is: a twin of crate::plain. Of one function with a const parameter that calls itself over lent slices the proof does not close, and
// with `explicit` as an argument lists without parents take a tenth longer (docs/PERFORMANCE.md, lists without parents walked apart).
ghost use Rattle.std.specs.Prelude.{true};
ghost use Rattle.defs.specs.Table.{entry_words, child_words};
ghost use Rattle.defs.specs.Checked.{HeaderOk};
ghost use Rattle.walk.specs.Packed.{held, Ready, ListedAll};

use table::EntryNo;
use walk::children::{child_in, children_of, lists_children, statement_in};
use walk::own::{finish, list_single};

// The children of an entry in order, each with what lies below it.
#[cycle(explicit)]
pub fn explicit_children(words: &&[u32], work: &mut [u32], e: EntryNo, start: usize) -> usize
    requires header_ok { HeaderOk words.now.now }
    requires ready { Ready (entry_words words.now.now) (child_words words.now.now) true e.0 (held work.old start) }
    ensures { ListedAll words.now.now true e.0 (held work.old start) (held work.new result) }
{
    let own = children_of(*words, true, e);
    let mut end = start;
    for i in own.first..own.until {
        let c = child_in(*words, i);
        let statement = statement_in(*words, c);
        let index = (i - own.first) as u32;
        if lists_children(*words, &work[..], c) {
            end = explicit_grandchildren(words, work, c, end);
            end = finish(work, c, statement, own.parent, index, end);
        } else {
            end = list_single(work, c, statement, own.parent, index, end);
        }
    }
    end
}

// The children of a child, listed in the same way.
#[cycle(explicit)]
fn explicit_grandchildren(words: &&[u32], work: &mut [u32], e: EntryNo, start: usize) -> usize
    requires header_ok { HeaderOk words.now.now }
    requires ready { Ready (entry_words words.now.now) (child_words words.now.now) true e.0 (held work.old start) }
    ensures { ListedAll words.now.now true e.0 (held work.old start) (held work.new result) }
{
    let own = children_of(*words, true, e);
    let mut end = start;
    for i in own.first..own.until {
        let c = child_in(*words, i);
        let statement = statement_in(*words, c);
        let index = (i - own.first) as u32;
        if lists_children(*words, &work[..], c) {
            end = explicit_children(words, work, c, end);
            end = finish(work, c, statement, own.parent, index, end);
        } else {
            end = list_single(work, c, statement, own.parent, index, end);
        }
    }
    end
}
