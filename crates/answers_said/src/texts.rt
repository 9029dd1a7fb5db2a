// The answer of the command text: the text of a table, or why there is none.
ghost use Rattle.std.specs.Prelude.{◌≤◌, length};
ghost use Rattle.layout.specs.Layouts.{layout_of};
ghost use Rattle.answers_said.specs.Lines.{Said};
ghost use Rattle.answers_said.specs.Texts.{text_room, text_said};

use crate::limits::put_too_large;
use crate::refusals::put_refusal;
use answers::Refusal;
use layout::Layout;
use layout::bytes::{put_byte, put_piece};
use text::text;

// The text is written where it is to stand: between its first line, of 15 bytes, and a newline.
pub fn text_said(
    words: &[u32],
    labels: &[u8],
    style: u32,
    layout: Layout,
    work: &mut [u32],
    sums: &mut [u16],
    out: &mut [u8],
) -> usize
    requires { (272 ≤ length out.old) × (length out.old ≤ 1000000000) }
    ensures { Said (text_said words.now labels.now style (layout_of layout) work.old sums.old
        (text_room out.old)) result out.new }
{
    let end = out.len() - 1;
    let answer = text(words, labels, style, layout, work, sums, &mut out[15..end]);
    match answer {
        Ok(length) => {
            put_piece(b"done: the text\n", 0, out);
            put_byte(b'\n', 15 + length, out)
        }
        Err(refusal) => match refusal {
            Refusal::ShortOutput => put_too_large(
                b"the text has more bytes than",
                (end - 15) as u32,
                out,
            ),
            _ => put_refusal(refusal.number(), out),
        },
    }
}
