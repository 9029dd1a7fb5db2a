// All blocks: the labels by use count, cut into blocks where the count reaches a cutoff, and the blocks filled one after the other.
ghost use Rattle.std.specs.Prelude.{◌≡◌, ◌+◌, length, get_or, take, drop};
ghost use Rattle.laws.specs.Tools.{part};
ghost use Rattle.blocks.specs.Emission.{Fitting, Labels, filled_from, index_order};

use crate::block::fill_block;
use crate::cutoffs::{cutoff_at, start_at};
use sorts::{number, sort_by_use};

// Before each label: if i = cutoff, close the block, i = 1, next cutoff; otherwise i grows by 1.
// The labels stand behind 2 n words, of which the first n are their costs and the others are left with the indices emitted.
fn fill_blocks(work: &mut [u32], n: usize, floatings: usize, width: usize, sums: &mut [u16])
    requires { Fitting n width floatings work.old (length sums.old) × Labels n work.old }
    ensures { part n n work.new ≡ (filled_from (λ j. get_or (take n work.old) j 0) width floatings (drop (n + n) work.old)).emitted }
{
    let mut counter = start_at(floatings);
    let mut position: usize = 2;
    let first = n + n;
    let end = work.len();
    let mut start = first;
    for label in first..end {
        if counter.i == cutoff_at(counter.level) {
            position = fill_block(work, n, start, label, position, width, sums);
            start = label;
            counter.level += 1;
            counter.i = 1;
        } else {
            counter.i += 1;
        }
    }
    fill_block(work, n, start, end, position, width, sums);
}

// The label order: the indices of n labels as they are emitted. At entry `work` has the costs of the labels, by index, then their
// use counts, then n more words; at exit the indices stand where the use counts stood, and the last n words are not spoken of.
pub fn label_order(work: &mut [u32], n: usize, floatings: usize, width: usize, sums: &mut [u16])
    requires { Fitting n width floatings work.old (length sums.old) }
    ensures { part n n work.new ≡ index_order (take n work.old) (part n n work.old) floatings width }
{
    let (counts, order) = work.split_at_mut(n + n);
    number(order);
    sort_by_use(&counts[n..], order);
    fill_blocks(work, n, floatings, width, sums);
}
