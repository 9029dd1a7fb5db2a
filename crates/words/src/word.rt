// A word by its parts: what stands in it is looked up once, then it is measured, and then its bytes are put.
ghost use Rattle.std.specs.Prelude.{◌≡◌, false, ◌+◌, ◌<◌};
ghost use Rattle.laws.specs.Puts.{farthest, Grows};
ghost use Rattle.defs.specs.Layout.{bad8, put_word};
ghost use Rattle.layout.specs.Layouts.{layout_of};
ghost use Rattle.layout.specs.Laid.{Lays};
ghost use Rattle.table.specs.Records.{StatementIn};
ghost use Rattle.walk.specs.Hyps.{parent_of, index_of};
ghost use Rattle.words.specs.Spelled.{most_word, most_laid, HypReady, word_of, spelled, WordShort, WordInside, WordLong};

use crate::hyps::hyp_span;
use crate::parts::{hyp_length, last_length, mark_length, put_hyp, put_last, put_mark};
use crate::spans::{Span, label_span};
use layout::lines::open_word;
use layout::{Layout, Line};
use table::StatementNo;
use walk::hyps::ParentHyp;

#[derive(Clone, Copy, Debug, PartialEq, Eq)]
pub struct Word {
    // The number that names its mark. None and 0 name none.
    pub mark: Option<u32>,
    // The label of the hypothesis that it stands for, in an explicit list.
    pub hyp: Option<Span>,
    pub label: Span,
    // The number that names the mark referred to, which stands in place of the label. None and 0 refer to none.
    pub reference: Option<u32>,
}

// The word of a step whose mark and reference have these numbers for names.
pub fn step_word(
    statements: &[u32],
    hyps: &[u32],
    theorem: StatementNo,
    explicit: bool,
    mark: Option<u32>,
    reference: Option<u32>,
    statement: StatementNo,
    hyp: ParentHyp,
) -> Word
    requires statement_in { StatementIn statements.now statement.0 }
    requires hyp_ready { HypReady statements.now hyps.now theorem.0 (parent_of hyp) (index_of hyp) }
    ensures { result ≡ word_of statements.now hyps.now theorem.0 explicit mark reference statement.0 (parent_of hyp) (index_of hyp) }
{
    Word {
        mark,
        hyp: hyp_span(statements, hyps, theorem, explicit, hyp),
        label: label_span(statements, statement),
        reference,
    }
}

// The word of a step that has no mark and is no reference.
pub fn plain_word(
    statements: &[u32],
    hyps: &[u32],
    theorem: StatementNo,
    explicit: bool,
    statement: StatementNo,
    hyp: ParentHyp,
) -> Word
    requires statement_in { StatementIn statements.now statement.0 }
    requires hyp_ready { HypReady statements.now hyps.now theorem.0 (parent_of hyp) (index_of hyp) }
    ensures { result ≡ word_of statements.now hyps.now theorem.0 explicit None None statement.0 (parent_of hyp) (index_of hyp) }
{
    step_word(
        statements, hyps, theorem, explicit, None, None, statement, hyp,
    )
}

pub fn word_length(word: Word) -> usize
    requires { WordShort word }
    ensures { WordLong word result }
{
    mark_length(word.mark) + hyp_length(word.hyp) + last_length(word.label, word.reference)
}

// The bytes of a word: the mark and colon, then `hyp=`, then the label or referred name.
fn put_bytes(labels: &[u8], word: Word, at: usize, out: &mut [u8]) -> usize
    requires word_inside { WordInside labels.now word }
    requires most_word_bound { at + most_word < farthest }
    ensures { Grows (spelled labels.now word) at result out.old out.new }
{
    let hyp = put_mark(word.mark, at, out);
    let last = put_hyp(labels, word.hyp, hyp, out);
    put_last(labels, word.label, word.reference, last, out)
}

// A word laid on a line: its length says what stands before it.
pub fn put_step_word(layout: Layout, line: Line, labels: &[u8], word: Word, out: &mut [u8]) -> Line
    requires layout_value { bad8 (layout_of layout) ≡ false }
    requires word_inside { WordInside labels.now word }
    requires most_laid_bound { line.end + most_laid < farthest }
    ensures { Lays (λ s. put_word (layout_of layout) s (spelled labels.now word)) most_laid line result out.old out.new }
{
    let opened = open_word(layout, line, word_length(word), out);
    let end = put_bytes(labels, word, opened.end, out);
    Line { at: opened.at, end }
}
