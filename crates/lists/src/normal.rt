// The normal list of a table: tests 1 to 7, 14, 13, 15.
ghost use Rattle.std.specs.Prelude.{◌≡◌, [], ◌∷◌, false, ◌*◌, ◌≤◌, ◌<◌, length};
ghost use Rattle.laws.specs.Tools.{over};
ghost use Rattle.defs.specs.Graph.{graph_in};
ghost use Rattle.defs.specs.Steps.{flat, normal_steps};
ghost use Rattle.answers.specs.Refused.{answer_number, answer_length};
ghost use Rattle.defs.specs.Outcome.{answer_one, step_list_outcome};
ghost use Rattle.defs.specs.Sections.{EntriesOk};
ghost use Rattle.counts.specs.Sizes.{capped_size};
ghost use Rattle.walk.specs.Entries.{size, Entries};
ghost use Rattle.walk.specs.Normal.{pair_size};

use crate::ending::ended;
use answers::Refusal;
use counts::sizes::count_normal;
use table::EntryNo;
use table::header::read_header;
use table::limits::STEP_WORDS;
use table::sections::{child_section, entry_section};
use table_check::check;
use walk::hyps::hyp_words;
use walk::normal::{begin, next};
use walk::room::working_words;
use walk::steps::put_step;

// The most steps of a normal list.
pub const MAX_NORMAL_STEPS: u32 = 1000000;

// How many steps the normal list from QED has, as far as refusal 13 asks; counted in the working slice.
pub fn count_steps(
    entries: &[u32],
    children: &[u32],
    n: usize,
    qed: EntryNo,
    work: &mut [u32],
) -> u32
    requires entries_ok { EntriesOk entries.now children.now n }
    requires qed_lt_n { (qed.0 < n) × (n ≤ length work.old) }
    ensures { result ≡ capped_size (graph_in entries.now children.now) qed.0 }
{
    count_normal(entries, children, n, work);
    let at = qed.0 as usize;
    work[at]
}

// The normal list from QED, at the front of the output.
fn write_normal(
    entries: &[u32],
    children: &[u32],
    stack: &mut [u32],
    explicit: bool,
    qed: EntryNo,
    out: &mut [u32],
)
    requires entries { Entries entries.now children.now }
    requires qed_bound { (qed.0 < size entries.now) × (pair_size * size entries.now ≤ length stack.old) }
    requires explicit_in_bounds { length (flat (normal_steps (graph_in entries.now children.now) qed.0 explicit)) ≤ length out.old }
    ensures { out.new ≡ over (flat (normal_steps (graph_in entries.now children.now) qed.0 explicit)) out.old }
{
    begin(entries, children, stack, qed);
    let mut depth: usize = 1;
    let mut at: usize = 0;
    while let Some(taken) = next(entries, children, stack, explicit, depth) {
        let words = hyp_words(taken.hyp);
        put_step(out, at, 0, 0, taken.statement.0, words.parent, words.index);
        at += STEP_WORDS;
        depth = taken.depth;
    }
}

// The number of steps is known before anything walks, and so are 13 and 15.
pub fn normal_list(
    words: &[u32],
    labels: &[u8],
    explicit: bool,
    work: &mut [u32],
    out: &mut [u32],
) -> Result<usize, Refusal>
    ensures { answer_one (answer_number result) (answer_length result) (work.new ∷ []) out.new
        ≡ step_list_outcome words.now labels.now false explicit work.old out.old }
{
    check(words, labels)?;
    if work.len() < working_words(words) {
        return Err(Refusal::ShortWork);
    }
    let header = read_header(words);
    let entries = entry_section(words);
    let children = child_section(words);
    let steps = count_steps(entries, children, header.entries as usize, header.qed, work);
    if MAX_NORMAL_STEPS < steps {
        return ended(work, Err(Refusal::ManySteps));
    }
    let length = STEP_WORDS * steps as usize;
    if out.len() < length {
        return ended(work, Err(Refusal::ShortOutput));
    }
    write_normal(entries, children, work, explicit, header.qed, out);
    ended(work, Ok(length))
}
