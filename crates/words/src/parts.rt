// The parts of a word: the mark's name and a colon; the hypothesis' label and an equals sign; the label, or the referred name. Of each the
// length, then the bytes: put from `at` on where they fit, and the end is the same either way. The names of marks begin at 1 and no label
// is empty, so a number 0 and a label of no bytes are no part, as None is.
ghost use Rattle.std.specs.Prelude.{◌≡◌, ◌+◌, ◌<◌, ◌≤◌, length, IfSome};
ghost use Rattle.laws.specs.Puts.{farthest, Grows};
ghost use Rattle.defs.specs.Table.{max_label_length};
ghost use Rattle.words.specs.Spelled.{most_mark, Inside, mark_part, hyp_part, last_part, HypLong, LastLong};

use crate::spans::Span;
use layout::bytes::{put_byte, put_piece};
use names::decimal::{decimal_length, put_decimal};

pub fn mark_length(mark: Option<u32>) -> usize
    ensures { (result ≡ length (mark_part mark)) × (result ≤ most_mark) }
{
    match mark {
        Some(number) if number != 0 => decimal_length(number) + 1,
        _ => 0,
    }
}

pub fn put_mark(mark: Option<u32>, at: usize, out: &mut [u8]) -> usize
    requires { at + max_label_length < farthest }
    ensures { Grows (mark_part mark) at result out.old out.new × (result ≤ at + most_mark) }
{
    match mark {
        Some(number) if number != 0 => {
            let colon = put_decimal(number, at, out);
            put_byte(b':', colon, out)
        }
        _ => at,
    }
}

pub fn hyp_length(hyp: Option<Span>) -> usize
    requires { IfSome hyp (λ s. s.length ≤ max_label_length) }
    ensures { HypLong hyp result }
{
    match hyp {
        Some(label) if 0 < label.length => label.length + 1,
        _ => 0,
    }
}

pub fn put_hyp(labels: &[u8], hyp: Option<Span>, at: usize, out: &mut [u8]) -> usize
    requires inside { IfSome hyp (Inside labels.now) }
    requires max_label_length_bound { at + max_label_length < farthest }
    ensures { Grows (hyp_part labels.now hyp) at result out.old out.new }
{
    match hyp {
        Some(label) if 0 < label.length => {
            let end = label.start + label.length;
            let equals = put_piece(&labels[label.start..end], at, out);
            put_byte(b'=', equals, out)
        }
        _ => at,
    }
}

pub fn last_length(label: Span, reference: Option<u32>) -> usize
    requires { label.length ≤ max_label_length }
    ensures { LastLong label reference result }
{
    match reference {
        Some(number) if number != 0 => decimal_length(number),
        _ => label.length,
    }
}

pub fn put_last(
    labels: &[u8],
    label: Span,
    reference: Option<u32>,
    at: usize,
    out: &mut [u8],
) -> usize
    requires inside { Inside labels.now label }
    requires max_label_length_bound { at + max_label_length < farthest }
    ensures { Grows (last_part labels.now label reference) at result out.old out.new }
{
    match reference {
        Some(number) if number != 0 => put_decimal(number, at, out),
        _ => {
            let end = label.start + label.length;
            put_piece(&labels[label.start..end], at, out)
        }
    }
}
