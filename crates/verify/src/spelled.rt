// The label list and the letters, written and decoded.
ghost use Rattle.layout.specs.Layouts.{layout_of};
ghost use Rattle.verify.specs.Spelled.{Decoding};

use crate::verdict::{Disagreement, Stage, at_stage};
use decode::decode;
use layout::Layout;
use order::label_letters;

// How many words the decoded steps fill.
pub fn decode_letters(
    words: &[u32],
    labels: &[u8],
    layout: Layout,
    work: &mut [u32],
    sums: &mut [u16],
    list: &mut [u32],
    letters: &mut [u8],
    steps: &mut [u32],
) -> Result<usize, Disagreement>
    ensures { Decoding words.now labels.now (layout_of layout) work.old sums.old list.old letters.old
        steps.old steps.new result }
{
    let answer = label_letters(words, labels, layout, work, sums, list, letters);
    let written = at_stage(Stage::Letters, answer)?;
    let decoded = decode(
        words,
        labels,
        &list[..written.first],
        &letters[..written.second],
        steps,
    );
    at_stage(Stage::Decoded, decoded)
}
