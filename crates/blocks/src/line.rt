// One line of a block: the chosen members are emitted, ascending, and leave the block.
ghost use Rattle.std.specs.Prelude.{◌≡◌, ◌+◌, ◌*◌, ◌≤◌, ◌<◌, length, take, drop};
ghost use Rattle.laws.specs.Tools.{pick, part};
ghost use Rattle.laws.specs.Lists.{All};
ghost use Rattle.laws.specs.Puts.{Placed};
ghost use Rattle.defs.specs.Table.{max_statements};
ghost use Rattle.defs.specs.Layout.{max_width};
ghost use Rattle.defs.specs.ChoiceLaws.{Ascending};
ghost use Rattle.choice.specs.Choice.{Chosen};
ghost use Rattle.blocks.specs.Line.{members_at, others, Once, is_next, position_after};
ghost use Rattle.blocks.specs.State.{Ready, LineDone};

// The line position, where the next index is emitted, and how many members of the block are left.
#[derive(Clone, Copy, Debug, PartialEq, Eq)]
pub struct Line {
    pub position: usize,
    pub at: usize,
    pub count: usize,
}

// Emits the members at these places of the block that starts at `start`, from `at` on.
fn put_members(work: &mut [u32], start: usize, places: &[u16], at: usize)
    requires places_bound { at + length places.now ≤ start }
    requires all { All (λ p. start + p < length work.old) places.now }
    ensures { Placed (members_at (drop start work.old) places.now) at (at + length places.now) work.old work.new }
{
    for (done, place) in places.iter().enumerate() {
        work[at + done] = work[start + *place as usize];
    }
}

// One place more is behind if the next one is p.
fn pass(places: &[u16], gone: usize, p: usize) -> usize
    requires { gone ≤ length places.now }
    ensures { result ≡ pick (is_next places.now gone p) (gone + 1) gone }
{
    if gone < places.len() && places[gone] as usize == p {
        return gone + 1;
    }
    gone
}

// Removes the members at these places, which ascend, and answers how many members are left. Each member moves to the front
// by as many places as are behind.
fn remove(block: &mut [u32], places: &[u16]) -> usize
    requires all { All (λ p. p < length block.old) places.now × Ascending places.now }
    requires once { Once block.old }
    ensures { (result + length places.now ≡ length block.old)
        × (take result block.new ≡ others block.old (members_at block.old places.now)) }
{
    let mut gone: usize = 0;
    for p in 0..block.len() {
        block[p - gone] = block[p];
        gone = pass(places, gone, p);
    }
    block.len() - gone
}

// If nothing was chosen or position ≥ W − 1, position becomes 0.
fn position_after(width: usize, chosen: usize, position: usize) -> usize
    requires { 0 < width }
    ensures { result ≡ position_after width chosen position }
{
    if chosen == 0 || width - 1 <= position {
        return 0;
    }
    position
}

// The choice among `count` members from `start` on. The n costs stand at the front.
fn choose_for(
    work: &[u32],
    n: usize,
    start: usize,
    count: usize,
    room: usize,
    sums: &mut [u16],
) -> choice::Choice
    requires n_in_bounds { (n ≤ length work.now) × (start + count ≤ length work.now) }
    requires all { All (λ j. j < n) (part start count work.now) }
    requires count_le_max_statements { (count ≤ max_statements) × ((room ≤ max_width) × ((count + 1) * (room + 1) ≤ length sums.old)) }
    ensures { Chosen (take n work.now) (part start count work.now) room result.start result.total sums.new }
{
    let end = start + count;
    choice::choose(&work[..n], &work[start..end], room, sums)
}

// Chooses, emits, removes: one line.
pub fn fill_line(
    work: &mut [u32],
    n: usize,
    start: usize,
    line: Line,
    width: usize,
    sums: &mut [u16],
) -> Line
    requires { Ready n width start line.position line.at line.count work.old (length sums.old) }
    ensures { LineDone n width start line.position line.at line.count work.old result.position result.at result.count work.new }
{
    let at = line.at;
    let count = line.count;
    let choice = choose_for(&work[..], n, start, count, width - line.position, sums);
    let first = choice.start;
    let chosen = sums.len() - first;
    put_members(work, start, &sums[first..], at);
    let end = start + count;
    let left = remove(&mut work[start..end], &sums[first..]);
    let position = position_after(width, chosen, line.position + choice.total);
    Line {
        position,
        at: at + chosen,
        count: left,
    }
}
