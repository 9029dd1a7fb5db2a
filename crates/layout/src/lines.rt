// Words laid on lines (document 01, "Styles and layout").
ghost use Rattle.std.specs.Prelude.{◌≡◌, false, ◌+◌, ◌<◌, length};
ghost use Rattle.defs.specs.Layout.{bad8, begin, put_word};
ghost use Rattle.defs.specs.Text.{end_word};
ghost use Rattle.layout.specs.Layouts.{layout_of};
ghost use Rattle.layout.specs.Laid.{Near, longest, most_before, opened, Wrote, Lays};

use crate::bounds::Layout;
use crate::bytes::{put_byte, put_piece, put_spaces};

#[derive(Clone, Copy, Debug, PartialEq, Eq)]
pub struct Line {
    // The position p.
    pub at: usize,
    // How many bytes of text there are so far, on all lines.
    pub end: usize,
}

// The last word, `$.`.
pub const END_WORD: [u8; 2] = *b"$.";

// Begin with (indent − 1 − first position) spaces and position p = indent − 1.
pub fn begin(layout: Layout, out: &mut [u8]) -> Line
    requires { bad8 (layout_of layout) ≡ false }
    ensures { Wrote (begin (layout_of layout)) result out.old out.new × (result.end < most_before) }
{
    let at = layout.indent as usize - 1;
    let first = layout.first as usize;
    let end = put_spaces(at - first, 0, out);
    Line { at, end }
}

// What stands before a word of length k: if p + k < width, a space; else newline, indent spaces. The position is already
// past the word, whose bytes the caller puts from the end on.
pub fn open_word(layout: Layout, line: Line, k: usize, out: &mut [u8]) -> Line
    requires layout_value { bad8 (layout_of layout) ≡ false }
    requires near { Near line × (k < longest) }
    ensures { Lays (opened (layout_of layout) k) most_before line result out.old out.new }
{
    let at = line.at;
    let end = line.end;
    let indent = layout.indent as usize;
    // p + k < width, with no sum that could wrap
    if k < layout.left(at) {
        let start = put_byte(b' ', end, out);
        return Line {
            at: at + k + 1,
            end: start,
        };
    }
    let next = put_byte(b'\n', end, out);
    let start = put_spaces(indent, next, out);
    Line {
        at: indent + k,
        end: start,
    }
}

// A word of length k, all of it at hand. Its bytes are written into the part of the output still free.
pub fn put_word(layout: Layout, line: Line, word: &[u8], out: &mut [u8]) -> Line
    requires layout_value { bad8 (layout_of layout) ≡ false }
    requires near { Near line }
    ensures { Lays (λ s. put_word (layout_of layout) s word.now) (most_before + length word.now) line result
        out.old out.new }
{
    let opened = open_word(layout, line, word.len(), out);
    let start = opened.end;
    let end = put_piece(word, start, out);
    Line { at: opened.at, end }
}

// The text with its last word: no newline after it.
pub fn close(layout: Layout, line: Line, out: &mut [u8]) -> Line
    requires layout_value { bad8 (layout_of layout) ≡ false }
    requires near { Near line }
    ensures { Lays (λ s. put_word (layout_of layout) s end_word) (most_before + length end_word) line result
        out.old out.new }
{
    put_word(layout, line, &END_WORD, out)
}
