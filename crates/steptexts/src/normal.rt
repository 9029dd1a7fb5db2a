// The normal text: styles 1 and 3. Its steps are taken from the walk one by one; no list of them is kept.
ghost use Rattle.std.specs.Prelude.{◌≡◌, false, length};
ghost use Rattle.defs.specs.Layout.{bad8};
ghost use Rattle.defs.specs.Text.{normal_of, steps_text};
ghost use Rattle.layout.specs.Layouts.{layout_of};
ghost use Rattle.steptexts.specs.Texts.{Printed, NormalReady};

use layout::Layout;
use layout::lines::close;
use table::header::read_header;
use table::sections::{child_section, entry_section, hyp_section, statement_section};
use walk::normal::{begin, next};
use words::word::{plain_word, put_step_word};

// The text of the normal list from QED; where it ends. A step of it has no mark and is no reference.
pub fn normal_text(
    words: &[u32],
    labels: &[u8],
    layout: Layout,
    explicit: bool,
    stack: &mut [u32],
    out: &mut [u8],
) -> usize
    requires layout_value { bad8 (layout_of layout) ≡ false }
    requires normal_ready { NormalReady words.now labels.now (length stack.old) }
    ensures { Printed (steps_text words.now labels.now (layout_of layout) explicit (normal_of words.now explicit)) result
        out.old out.new }
{
    let header = read_header(words);
    let statements = statement_section(words);
    let hyps = hyp_section(words);
    let entries = entry_section(words);
    let children = child_section(words);
    begin(entries, children, stack, header.qed);
    let mut line = layout::lines::begin(layout, out);
    let mut depth: usize = 1;
    while let Some(taken) = next(entries, children, stack, explicit, depth) {
        let word = plain_word(
            statements,
            hyps,
            header.theorem,
            explicit,
            taken.statement,
            taken.hyp,
        );
        line = put_step_word(layout, line, labels, word, out);
        depth = taken.depth;
    }
    let last = close(layout, line, out);
    last.end
}
