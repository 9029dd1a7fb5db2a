// Lines of a text. Every line ends with a newline.
ghost use Rattle.std.specs.Prelude.{◌≡◌, ◌+◌, ◌<◌, ◌≤◌, length, drop};
ghost use Rattle.laws.specs.Puts.{farthest, Grows};
ghost use Rattle.answers_said.specs.Lines.{line_length, from_line, line_at, ended};

use layout::bytes::{put_byte, put_piece};

// The length of an array in which any answer of one or two lines has room.
pub const LINE_BYTES: usize = 256;

// Where the line that this place stands in ends.
pub fn line_end(text: &[u8], from: usize) -> usize
    requires { from ≤ length text.now }
    ensures { (result ≡ from + line_length (drop from text.now)) × (result ≤ length text.now) }
{
    for i in from..text.len() {
        if text[i] == b'\n' {
            return i;
        }
    }
    text.len()
}

// Where line k starts, or the end of the text where it has fewer.
pub fn line_start(text: &[u8], k: usize) -> usize
    ensures { (drop result text.now ≡ from_line k text.now) × (result ≤ length text.now) }
{
    let mut start: usize = 0;
    for _line in 0..k {
        let end = line_end(text, start);
        if end == text.len() {
            return end;
        }
        start = end + 1;
    }
    start
}

// Puts line k and a newline from `at` on where they fit, and answers where they end.
pub fn put_line(text: &[u8], k: usize, at: usize, out: &mut [u8]) -> usize
    requires { at + length text.now < farthest }
    ensures { Grows (ended (line_at k text.now)) at result out.old out.new }
{
    let start = line_start(text, k);
    let end = line_end(text, start);
    let behind = put_piece(&text[start..end], at, out);
    put_byte(b'\n', behind, out)
}
