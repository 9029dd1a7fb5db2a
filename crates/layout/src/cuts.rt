// Letters cut to the lines (document 01, "Text: `(`, labels, `)`, then letters cut"), while they are made: where one goes does
// not depend on how many follow. They begin as an empty word; then each stands on the line, or begins the next where it is full.
ghost use Rattle.std.specs.Prelude.{◌≡◌, false, [], ◌+◌, ◌*◌, ◌<◌, length};
ghost use Rattle.laws.specs.Puts.{farthest};
ghost use Rattle.defs.specs.Layout.{bad8, put_word};
ghost use Rattle.layout.specs.Layouts.{layout_of};
ghost use Rattle.layout.specs.Laid.{Near, Lays, most_before};
ghost use Rattle.layout.specs.Streams.{put_letter, streamed, most_letter};

use crate::bounds::Layout;
use crate::bytes::put_byte;
use crate::lines::{Line, open_word};

// What stands before the first letter. Where the line has room for the blank alone, this is the empty word.
pub fn open_letters(layout: Layout, line: Line, out: &mut [u8]) -> Line
    requires layout_value { bad8 (layout_of layout) ≡ false }
    requires near { Near line }
    ensures { Lays (λ s. put_word (layout_of layout) s []) most_before line result out.old out.new }
{
    open_word(layout, line, 0, out)
}

// One letter more.
pub fn put_letter(layout: Layout, line: Line, letter: u8, out: &mut [u8]) -> Line
    requires layout_value { bad8 (layout_of layout) ≡ false }
    requires near { Near line }
    ensures { Lays (λ s. put_letter (layout_of layout) s letter) most_letter line result out.old out.new }
{
    let at = line.at;
    if at < layout.width as usize {
        let end = put_byte(letter, line.end, out);
        return Line { at: at + 1, end };
    }
    let opened = open_word(layout, line, 1, out);
    let end = put_byte(letter, opened.end, out);
    Line { at: opened.at, end }
}

// Some letters more: those of a step.
pub fn put_letters(layout: Layout, line: Line, letters: &[u8], out: &mut [u8]) -> Line
    requires layout_value { bad8 (layout_of layout) ≡ false }
    requires letters_bound { line.end + most_letter * length letters.now < farthest }
    ensures { Lays (λ s. streamed (layout_of layout) s letters.now) (most_letter * length letters.now) line result
        out.old out.new }
{
    let mut laid = line;
    for letter in letters {
        laid = put_letter(layout, laid, *letter, out);
    }
    laid
}
