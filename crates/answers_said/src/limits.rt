// What is larger than the slices lent.
ghost use Rattle.std.specs.Prelude.{◌≤◌, length};
ghost use Rattle.laws.specs.Puts.{Grows};
ghost use Rattle.answers_said.specs.Lines.{Said};
ghost use Rattle.answers_said.specs.Limits.{too_large_line};

use crate::lines::LINE_BYTES;
use layout::bytes::{put_byte, put_piece};
use names::decimal::put_decimal;

// Puts the line at the front where it fits, and answers how many bytes it is. `what` ends where the size is to be said.
pub fn put_too_large(what: &[u8], most: u32, out: &mut [u8]) -> usize
    requires { length what.now ≤ 64 }
    ensures grows { Grows (too_large_line what.now most) 0 result out.old out.new }
    ensures upper_bound { result ≤ 87 }
{
    let begun = put_piece(b"too large: ", 0, out);
    let named = put_piece(what, begun, out);
    let parted = put_byte(b' ', named, out);
    let numbered = put_decimal(most, parted, out);
    put_byte(b'\n', numbered, out)
}

pub fn too_large_said(what: &[u8], most: u32, line: &mut [u8; LINE_BYTES]) -> usize
    requires { length what.now ≤ 64 }
    ensures { Said (too_large_line what.now most) result line.new }
{
    put_too_large(what, most, line)
}
