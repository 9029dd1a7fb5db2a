// The compressed text: `(`, the labels, `)`, the letters of the steps, `$.`.
ghost use Rattle.std.specs.Prelude.{◌≡◌, false};
ghost use Rattle.defs.specs.Layout.{bad8};
ghost use Rattle.layout.specs.Layouts.{layout_of};
ghost use Rattle.compressed.specs.Texts.{TextReady, TextWrote};

use crate::labels::put_labels;
use crate::places::Places;
use crate::steps::put_steps;
use layout::Layout;
use layout::cuts::open_letters;
use layout::lines::{begin, close, put_word};

// Answers where the text ends.
pub fn compressed_text(
    layout: Layout,
    statements: &[u32],
    labels: &[u8],
    work: &[u32],
    places: Places,
    out: &mut [u8],
) -> usize
    requires layout_value { bad8 (layout_of layout) ≡ false }
    requires text_ready { TextReady statements.now labels.now places work.now }
    ensures { TextWrote (layout_of layout) statements.now labels.now places result work.now out.old out.new }
{
    let begun = begin(layout, out);
    let opened = put_word(layout, begun, b"(", out);
    let listed = put_labels(layout, opened, statements, labels, work, places, out);
    let closed = put_word(layout, listed, b")", out);
    let started = open_letters(layout, closed, out);
    let lettered = put_steps(layout, started, work, places, out);
    let ended = close(layout, lettered, out);
    ended.end
}
