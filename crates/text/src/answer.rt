// The text of a table: tests 1 to 9, 14 (the u16 slice for style 0 only), 10 to 12 (style 0), 13 (styles 1 and 3), 15.
ghost use Rattle.std.specs.Prelude.{◌≡◌, false, ◌&&◌, ◌||◌, [], ◌∷◌, length, ltb};
ghost use Rattle.defs.specs.Checked.{HeaderOk};
ghost use Rattle.defs.specs.Layout.{bad8};
ghost use Rattle.defs.specs.Text.{is_compressed};
ghost use Rattle.defs.specs.Refusals.{need32, need16};
ghost use Rattle.defs.specs.Outcome.{answer_one, text_outcome};
ghost use Rattle.answers.specs.Refused.{answer_number, answer_length};
ghost use Rattle.layout.specs.Layouts.{layout_of};
ghost use Rattle.text.specs.Styles.{number_of};

use crate::style::Style;
use crate::writers::write_text;
use answers::{Refusal, wipe_both};
use layout::Layout;
use order::room::working_sums;
use table_check::check;
use walk::room::working_words;

// 14: a working slice too short. Only style 0 asks for the u16 slice.
fn is_short(words: &[u32], layout: Layout, style: Style, work: usize, sums: usize) -> bool
    requires { HeaderOk words.now × (bad8 (layout_of layout) ≡ false) }
    ensures { result ≡ (ltb work (need32 words.now) || (is_compressed (number_of style) && ltb sums (need16 words.now (layout_of layout)))) }
{
    work < working_words(words) || style.compressed() && sums < working_sums(words, layout)
}

// Any ending past test 14 leaves both working slices zero.
pub fn text(
    words: &[u32],
    labels: &[u8],
    style: u32,
    layout: Layout,
    work: &mut [u32],
    sums: &mut [u16],
    out: &mut [u8],
) -> Result<usize, Refusal>
    ensures { answer_one (answer_number result) (answer_length result) (work.new ∷ sums.new ∷ []) out.new
        ≡ text_outcome words.now labels.now style (layout_of layout) work.old sums.old out.old }
{
    check(words, labels)?;
    if layout.is_bad() {
        return Err(Refusal::Layout);
    }
    let known = Style::try_from(style)?;
    if is_short(words, layout, known, work.len(), sums.len()) {
        return Err(Refusal::ShortWork);
    }
    let answer = write_text(words, labels, known, layout, work, sums, out);
    wipe_both(work, sums);
    answer
}
