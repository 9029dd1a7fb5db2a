// One block: sorted by index, then filled line after line until it is empty.
ghost use Rattle.std.specs.Prelude.{length};
ghost use Rattle.blocks.specs.State.{BlockReady, BlockDone};

use crate::line::{Line, fill_line};
use sorts::sort_by_index;

// Fills the block from `start` to `end`, from the line position on that the block before left, and answers the one it leaves.
// All members of earlier blocks are emitted, so its first index goes n places before its first member.
pub fn fill_block(
    work: &mut [u32],
    n: usize,
    start: usize,
    end: usize,
    position: usize,
    width: usize,
    sums: &mut [u16],
) -> usize
    requires { BlockReady n width start end position work.old (length sums.old) }
    ensures { BlockDone n width start end position work.old result work.new }
{
    sort_by_index(&mut work[start..end]);
    let mut line = Line {
        position,
        at: start - n,
        count: end - start,
    };
    while 0 < line.count {
        line = fill_line(work, n, start, line, width, sums);
    }
    line.position
}
