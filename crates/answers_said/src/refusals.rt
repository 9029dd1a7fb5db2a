// A refusal: its number, and document 01's reason in words.
ghost use Rattle.std.specs.Prelude.{◌<◌, ◌≤◌};
ghost use Rattle.laws.specs.Puts.{Grows};
ghost use Rattle.answers_said.specs.Lines.{Said};
ghost use Rattle.answers_said.specs.Refusals.{reason_line, refusal_line};

use crate::lines::{LINE_BYTES, put_line};
use layout::bytes::put_piece;
use names::decimal::put_decimal;

// Line 0 is for no refusal.
// As it is: (a) refusal_said promises a line for every number, also for one that no refusal has, so the reasons are found by number.
fn put_reason(number: u32, at: usize, out: &mut [u8]) -> usize
    requires { at < 1000 }
    ensures { Grows (reason_line number) at result out.old out.new }
{
    put_line(
        b"done
fewer than 10 words, a count over its limit, a wrong offset or length
a statement record is wrong, or labels or hypotheses are not filled exactly
a label byte other than letter, digit, . - _, or two equal labels
a hypothesis reference out of range, of kind 0, or repeated in its list
an entry record is wrong, or the child references are not filled exactly
a child not below its parent
the theorem is not a statement of kind 0, or QED is not below the number of entries
layout outside its bounds
style not 0 to 4
compressed: the theorem's list has a floating after an essential
compressed: a reachable essential not in the theorem's list
compressed: a label to be listed longer than line width minus indent
normal styles: more than 1,000,000 steps
working slice too short
output does not fit
malformed step list or label list
malformed letters
stack short, or not exactly one item at the end
",
        number as usize,
        at,
        out,
    )
}

// Puts the line of a refusal at the front where it fits, and answers how many bytes it is.
pub fn put_refusal(number: u32, out: &mut [u8]) -> usize
    ensures grows { Grows (refusal_line number) 0 result out.old out.new }
    ensures upper_bound { result ≤ 111 }
{
    let begun = put_piece(b"refused ", 0, out);
    let numbered = put_decimal(number, begun, out);
    let parted = put_piece(b": ", numbered, out);
    put_reason(number, parted, out)
}

pub fn refusal_said(number: u32, line: &mut [u8; LINE_BYTES]) -> usize
    ensures { Said (refusal_line number) result line.new }
{
    put_refusal(number, line)
}
