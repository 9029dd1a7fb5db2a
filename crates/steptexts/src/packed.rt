// The packed text: styles 2 and 4. The steps stand in the working slice, and the names of the marks in other words of it.
ghost use Rattle.std.specs.Prelude.{◌≡◌, false, ◌+◌, ◌<◌, length};
ghost use Rattle.defs.specs.Layout.{bad8};
ghost use Rattle.defs.specs.Text.{packed_of, steps_text};
ghost use Rattle.layout.specs.Layouts.{layout_of};
ghost use Rattle.walk.specs.Hyps.{parent_of, index_of};
ghost use Rattle.steptexts.specs.Texts.{number_at, step_at, word_for, WordReady, Printed, PackedReady};

use crate::named::Places;
use layout::Layout;
use layout::lines::{begin, close};
use table::StatementNo;
use table::header::read_header;
use table::limits::STEP_WORDS;
use table::sections::{hyp_section, statement_section};
use walk::hyps::ParentHyp;
use words::Word;
use words::word::{put_step_word, step_word};

// The number that names mark m stands m words past `names`. Mark 0 is no mark.
fn name_number(work: &[u32], names: usize, m: u32) -> Option<u32>
    requires { names + m < length work.now }
    ensures { result ≡ number_at work.now names m }
{
    if m == 0 {
        return None;
    }
    Some(work[names + m as usize])
}

// The parent hypothesis that the last two words of a step say.
fn hyp_of(parent: u32, index: u32) -> ParentHyp
    requires { parent ≡ 0 → index ≡ 0 }
    ensures { (parent_of result ≡ parent) × (index_of result ≡ index) }
{
    if parent == 0 {
        return ParentHyp::Root;
    }
    ParentHyp::Of {
        statement: StatementNo(parent - 1),
        index,
    }
}

// The word of the step at `at`: its reference, mark, statement, parent statement plus 1, hypothesis index.
fn packed_word(
    statements: &[u32],
    hyps: &[u32],
    theorem: StatementNo,
    explicit: bool,
    work: &[u32],
    at: usize,
    names: usize,
) -> Word
    requires { WordReady statements.now hyps.now theorem.0 work.now at names }
    ensures { result ≡ word_for statements.now hyps.now theorem.0 explicit (number_at work.now names)
        (step_at work.now at) }
{
    let reference = name_number(work, names, work[at]);
    let mark = name_number(work, names, work[at + 1]);
    let statement = StatementNo(work[at + 2]);
    let hyp = hyp_of(work[at + 3], work[at + 4]);
    step_word(
        statements, hyps, theorem, explicit, mark, reference, statement, hyp,
    )
}

// The text of the packed list, from where it and the names of its marks stand; where it ends.
pub fn packed_text(
    words: &[u32],
    labels: &[u8],
    layout: Layout,
    explicit: bool,
    work: &[u32],
    places: Places,
    out: &mut [u8],
) -> usize
    requires layout_value { bad8 (layout_of layout) ≡ false }
    requires packed_ready { PackedReady words.now labels.now explicit places.steps places.many places.names work.now }
    ensures { Printed (steps_text words.now labels.now (layout_of layout) explicit (packed_of words.now explicit)) result
        out.old out.new }
{
    let header = read_header(words);
    let statements = statement_section(words);
    let hyps = hyp_section(words);
    let mut line = begin(layout, out);
    for i in 0..places.many {
        let at = places.steps + STEP_WORDS * i;
        let word = packed_word(
            statements,
            hyps,
            header.theorem,
            explicit,
            work,
            at,
            places.names,
        );
        line = put_step_word(layout, line, labels, word, out);
    }
    let last = close(layout, line, out);
    last.end
}
