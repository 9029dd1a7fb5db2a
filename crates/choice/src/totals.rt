// The greatest total for every room up to the one asked, without items, with the first item, with the first two, ..:
// one row of `width` cells each, row after row. A cell is below 256, so 16 bits hold the sum of a cell and a cost.
ghost use Rattle.std.specs.Prelude.{◌≡◌, ◌+◌, ◌-◌, ◌*◌, ◌≤◌, ◌<◌, max, min, length};
ghost use Rattle.defs.specs.Layout.{max_width};
ghost use Rattle.laws.specs.Lists.{All};
ghost use Rattle.choice.specs.Rows.{Written, Low, none, above, greater, next_total, cost_at, Totals};

// Without items every total is 0.
fn first_row(sums: &mut [u16], width: usize)
    requires { width ≤ length sums.old }
    ensures { Written none 0 width sums.old sums.new }
{
    sums[..width].fill(0);
}

// Rooms below the item's cost: the totals of the row above.
fn copy_above(sums: &mut [u16], width: usize, from: usize, to: usize)
    requires { (width ≤ from) × ((from ≤ to) × ((to ≤ from + width) × (to ≤ length sums.old))) }
    ensures { Written (above sums.old width) from to sums.old sums.new }
{
    // As it is: (b) a loop and no `copy_within`: on lines of a few bytes, where a row is short, its call took a quarter of all the time.
    for at in from..to {
        sums[at] = sums[at - width];
    }
}

// Rooms from the item's cost on: without the item, or with it and the greatest total for the room that it leaves.
fn add_item(sums: &mut [u16], width: usize, cost: u16, from: usize, to: usize)
    requires cost_le_width { (cost ≤ width) × ((width + cost ≤ from) × ((to ≤ from + width) × (to ≤ length sums.old))) }
    requires width_bound { (width ≤ max_width + 1) × Low sums.old (from - (width + cost)) from }
    ensures { Written (greater sums.old width cost) from to sums.old sums.new }
{
    let back = width + cost as usize;
    for at in from..to {
        let without = sums[at - width];
        let with_it = cost + sums[at - back];
        sums[at] = without.max(with_it);
    }
}

// One row more, from `row` on: with one more item to take or to leave.
fn next_row(sums: &mut [u16], width: usize, row: usize, cost: usize)
    requires width_le_row { (width ≤ row) × (row + width ≤ length sums.old) }
    requires width_bound { (width ≤ max_width + 1) × Low sums.old (row - width) row }
    ensures { Written (next_total sums.old width row cost) row (row + width) sums.old sums.new }
{
    let below = cost.min(width);
    let from = row + below;
    copy_above(sums, width, row, from);
    add_item(sums, width, below as u16, from, row + width);
}

// The rows for none of the block's items to all of them.
pub fn fill(costs: &[u32], block: &[u32], width: usize, sums: &mut [u16])
    requires all { All (λ item. item < length costs.now) block.now }
    requires width_nonzero { (0 < width) × ((width ≤ max_width + 1) × ((length block.now + 1) * width ≤ length sums.old)) }
    ensures { Totals (cost_at costs.now block.now) (length block.now) width sums.new }
{
    first_row(sums, width);
    for (i, item) in block.iter().enumerate() {
        let cost = costs[*item as usize] as usize;
        next_row(sums, width, (i + 1) * width, cost);
    }
}
