// Numbers as decimals, printed and read.
ghost use Rattle.std.specs.Prelude.{◌≡◌, ◌∷◌, [], ◌++◌, take};
ghost use Rattle.io.specs.Counts.{IsPrefixLen};
ghost use Rattle.defs.specs.Names.{digits};
ghost use Rattle.bulonkeri.specs.Numbers.{Says};

use crate::printing::print;
use layout::bytes::put_byte;
use names::decimal::put_decimal;
use names::number::{is_decimal, number_of};

// The most digits of a number, and the byte after them.
pub const TEXT_BYTES: usize = 11;

// Puts the digits of a number and the byte after them at the front, and answers how many bytes they are.
fn number_text(number: u32, after: u8, text: &mut [u8; TEXT_BYTES]) -> usize
    ensures prefix_len { IsPrefixLen result text.new }
    ensures text_after { take result text.new ≡ digits number ++ (after ∷ []) }
{
    let end = put_decimal(number, 0, text);
    put_byte(after, end, text)
}

pub fn print_number(rt: &(impl Print + Eprint), number: u32, after: u8) -> bool {
    let mut text = [0u8; TEXT_BYTES];
    let end = number_text(number, after, &mut text);
    print(rt, &text[..end])
}

// A decimal with no leading zero, up to 100,000: more than any layout has.
pub fn number_in(text: &[u8]) -> Option<u32>
    ensures { Says text.now result }
{
    let number = number_of(text);
    if is_decimal(text, number) {
        Some(number)
    } else {
        None
    }
}
