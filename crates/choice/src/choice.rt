// The chosen set: from the highest item down, an item is left out whenever the rest still reaches the greatest total.
ghost use Rattle.std.specs.Prelude.{◌≡◌, ◌+◌, ◌*◌, ◌≤◌, ◌<◌, length, drop};
ghost use Rattle.defs.specs.Table.{max_statements};
ghost use Rattle.defs.specs.Layout.{max_width};
ghost use Rattle.defs.specs.Order.{choose};
ghost use Rattle.laws.specs.Lists.{All};
ghost use Rattle.choice.specs.Rows.{cost_at, Totals};
ghost use Rattle.choice.specs.Choice.{Chosen};

use crate::totals::fill;

// The places of the chosen items stand in the lent cells from `start` on, ascending. Together the items cost `total`.
#[derive(Clone, Copy, Debug, PartialEq, Eq)]
pub struct Choice {
    pub start: usize,
    pub total: usize,
}

// Puts the places at the end of the cells, the highest first, and answers where they start. Rows of items that are passed
// are not read again, so the places may stand in them.
fn put_places(costs: &[u32], block: &[u32], room: usize, sums: &mut [u16]) -> usize
    requires all { All (λ item. item < length costs.now) block.now }
    requires block_len_bound { (length block.now ≤ max_statements) × ((length block.now + 1) * (room + 1) ≤ length sums.old) }
    requires totals { Totals (cost_at costs.now block.now) (length block.now) (room + 1) sums.old }
    ensures { (result ≤ length sums.new)
        × (drop result sums.new ≡ choose (cost_at costs.now block.now) (length block.now) room) }
{
    let width = room + 1;
    let mut left = room;
    let mut start = sums.len();
    for i in (0..block.len()).rev() {
        let at = i * width + left;
        if sums[at + width] != sums[at] {
            start -= 1;
            sums[start] = i as u16;
            let item = block[i] as usize;
            left -= costs[item] as usize;
        }
    }
    start
}

// The choice within a block for a room: of the sets with the greatest total cost not over the room, the one of document 01's
// tie rule. `block` names its items by index, `costs` has the cost of each index. What the cells before the places are left
// with is not said.
pub fn choose(costs: &[u32], block: &[u32], room: usize, sums: &mut [u16]) -> Choice
    requires all { All (λ item. item < length costs.now) block.now }
    requires block_len_bound { (length block.now ≤ max_statements) × ((room ≤ max_width) × ((length block.now + 1) * (room + 1) ≤ length sums.old)) }
    ensures { Chosen costs.now block.now room result.start result.total sums.new }
{
    let width = room + 1;
    fill(costs, block, width, sums);
    let total = sums[block.len() * width + room] as usize;
    let start = put_places(costs, block, room, sums);
    Choice { start, total }
}
