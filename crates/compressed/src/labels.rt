// The labels of the label list, laid as words.
ghost use Rattle.std.specs.Prelude.{◌≡◌, false, map, ◌*◌};
ghost use Rattle.laws.specs.Tools.{part};
ghost use Rattle.defs.specs.Table.{label_in};
ghost use Rattle.defs.specs.Layout.{bad8, put_word, put_words};
ghost use Rattle.layout.specs.Layouts.{layout_of};
ghost use Rattle.layout.specs.Laid.{Near, Lays};
ghost use Rattle.compressed.specs.Listed.{most_label, LabelReady, LabelsReady, NearLabels};

use crate::places::Places;
use layout::lines::put_word;
use layout::{Layout, Line};
use table::StatementNo;
use table::statements::label_of;

fn put_label(
    layout: Layout,
    line: Line,
    statements: &[u32],
    labels: &[u8],
    k: StatementNo,
    out: &mut [u8],
) -> Line
    requires layout_value { bad8 (layout_of layout) ≡ false }
    requires near { Near line × LabelReady statements.now labels.now k.0 }
    ensures { Lays (λ s. put_word (layout_of layout) s (label_in statements.now labels.now k.0)) most_label line result
        out.old out.new }
{
    put_word(layout, line, label_of(statements, labels, k), out)
}

pub fn put_labels(
    layout: Layout,
    line: Line,
    statements: &[u32],
    labels: &[u8],
    work: &[u32],
    places: Places,
    out: &mut [u8],
) -> Line
    requires layout_value { bad8 (layout_of layout) ≡ false }
    requires near_labels { NearLabels places.listed line × LabelsReady statements.now labels.now places work.now }
    ensures { Lays (λ s. put_words (layout_of layout) s (map (label_in statements.now labels.now) (part places.list places.listed work.now)))
        (most_label * places.listed) line result out.old out.new }
{
    let mut laid = line;
    let end = places.list + places.listed;
    for k in &work[places.list..end] {
        laid = put_label(layout, laid, statements, labels, StatementNo(*k), out);
    }
    laid
}
