// The label list of a table with the letters of its packed list: tests 1 to 8, 14 (either working slice), 10 to 12, 15 (either output).
ghost use Rattle.std.specs.Prelude.{◌≡◌, [], ◌∷◌, length};
ghost use Rattle.answers.specs.Refused.{answer_number, answer_first, answer_second};
ghost use Rattle.defs.specs.Outcome.{answer_two, letters_outcome};
ghost use Rattle.layout.specs.Layouts.{layout_of};
ghost use Rattle.order.specs.Arrangement.{Arrangeable};
ghost use Rattle.order.specs.Late.{WroteBoth};

use crate::arranged::arrange;
use crate::room::working_sums;
use answers::{Lengths, Refusal, wipe_both};
use layout::Layout;
use slices::copy::copy;
use table_check::check;
use walk::room::working_words;

// Tests 10 to 12 and 15. The letters are measured before they are written, so that 15 is known before an output is touched.
fn write_both(
    words: &[u32],
    layout: Layout,
    work: &mut [u32],
    sums: &mut [u16],
    list: &mut [u32],
    letters: &mut [u8],
) -> Result<Lengths, Refusal>
    requires { Arrangeable words.now (layout_of layout) (length work.old) (length sums.old) }
    ensures { WroteBoth words.now (layout_of layout) (answer_number result) (answer_first result) (answer_second result)
        list.old list.new letters.old letters.new }
{
    let arranged = arrange(words, layout, work, sums)?;
    let listed = arranged.listed;
    let length = arranged.put_letters(work, &mut letters[..0]);
    if list.len() < listed || letters.len() < length {
        return Err(Refusal::ShortOutput);
    }
    let at = arranged.labels;
    let end = at + listed;
    copy(&mut list[..listed], &work[at..end]);
    arranged.put_letters(work, letters);
    Ok(Lengths {
        first: listed,
        second: length,
    })
}

// Label list with letters. Any ending past test 14 leaves both working slices zero.
pub fn label_letters(
    words: &[u32],
    labels: &[u8],
    layout: Layout,
    work: &mut [u32],
    sums: &mut [u16],
    list: &mut [u32],
    letters: &mut [u8],
) -> Result<Lengths, Refusal>
    ensures { answer_two (answer_number result) (answer_first result) (answer_second result) (work.new ∷ sums.new ∷ []) list.new letters.new
        ≡ letters_outcome words.now labels.now (layout_of layout) work.old sums.old list.old letters.old }
{
    check(words, labels)?;
    if layout.is_bad() {
        return Err(Refusal::Layout);
    }
    if work.len() < working_words(words) || sums.len() < working_sums(words, layout) {
        return Err(Refusal::ShortWork);
    }
    let answer = write_both(words, layout, work, sums, list, letters);
    wipe_both(work, sums);
    answer
}
