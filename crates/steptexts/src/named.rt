// The packed list of a table in the working slice, and after it the names of its marks: what a packed text is written from.
ghost use Rattle.std.specs.Prelude.{◌≡◌, ◌≤◌, length};
ghost use Rattle.defs.specs.Check.{table_refusal};
ghost use Rattle.defs.specs.Refusals.{need32};
ghost use Rattle.steptexts.specs.Texts.{PackedReady};

use names::marks::mark_names;
use packing::pack::pack;
use table::header::read_header;
use table::limits::STEP_WORDS;
use table::sections::statement_section;

// Where they stand: the first step, how many there are, and the names.
#[derive(Clone, Copy, Debug, PartialEq, Eq)]
pub struct Places {
    pub steps: usize,
    pub many: usize,
    pub names: usize,
}

// No more marks are given than there are entries, so as many are named.
pub fn pack_named(words: &[u32], labels: &[u8], explicit: bool, work: &mut [u32]) -> Places
    requires labels_value { table_refusal words.now labels.now ≡ 0 }
    requires words_in_bounds { need32 words.now ≤ length work.old }
    ensures { PackedReady words.now labels.now explicit result.steps result.many result.names work.new }
{
    let header = read_header(words);
    let end = pack(words, work, explicit, header.qed);
    let statements = statement_section(words);
    let count = header.entries as usize;
    mark_names(statements, labels, count, &mut work[end..]);
    let steps = count + 1;
    Places {
        steps,
        many: (end - steps) / STEP_WORDS,
        names: end,
    }
}
