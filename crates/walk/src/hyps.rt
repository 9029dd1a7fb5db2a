// The parent hypothesis of a step, and the two words that say it in an explicit list.
ghost use Rattle.std.specs.Prelude.{◌≡◌, ◌+◌, ◌≤◌, ◌<◌};
ghost use Rattle.table.specs.Records.{EntryIn};
ghost use Rattle.defs.specs.Table.{max_word, entry_stmt_in};
ghost use Rattle.defs.specs.Steps.{parent_word, index_word};
ghost use Rattle.walk.specs.Hyps.{parent_of, index_of};

use table::entries::statement_of;
use table::{EntryNo, StatementNo};

// The root, or the place that a step has among the hypotheses of its parent.
// As it is: an enum of its own and no Option, since document 01 names this form: an enum taken apart at once, leaving early in the other case.
#[derive(Clone, Copy, Debug, PartialEq, Eq)]
pub enum ParentHyp {
    Root,
    Of { statement: StatementNo, index: u32 },
}

#[derive(Clone, Copy, Debug, PartialEq, Eq)]
pub struct HypWords {
    pub parent: u32,
    pub index: u32,
}

// Parent statement plus 1, hypothesis index; both 0 at the root.
pub fn hyp_words(hyp: ParentHyp) -> HypWords
    requires { parent_of hyp ≤ max_word }
    ensures { (result.parent ≡ parent_of hyp) × (result.index ≡ index_of hyp) }
{
    let ParentHyp::Of { statement, index } = hyp else {
        return HypWords {
            parent: 0,
            index: 0,
        };
    };
    HypWords {
        parent: statement.0 + 1,
        index,
    }
}

// What child `index` of entry e carries: in a list that is not explicit nothing, as the root.
pub fn child_hyp(entries: &[u32], explicit: bool, e: EntryNo, index: u32) -> ParentHyp
    requires { EntryIn entries.now e.0 }
    ensures { (parent_of result ≡ parent_word explicit (entry_stmt_in entries.now e.0)) × (index_of result ≡ index_word explicit index) }
{
    if explicit {
        ParentHyp::Of {
            statement: statement_of(entries, e),
            index,
        }
    } else {
        ParentHyp::Root
    }
}

// The parent word of every child of entry e.
pub fn parent_word(entries: &[u32], explicit: bool, e: EntryNo) -> u32
    requires entry_in { EntryIn entries.now e.0 }
    requires e_bound { entry_stmt_in entries.now e.0 < max_word }
    ensures { result ≡ parent_word explicit (entry_stmt_in entries.now e.0) }
{
    let words = hyp_words(child_hyp(entries, explicit, e, 0));
    words.parent
}
