// The cutoffs between blocks, and where the count starts.
ghost use Rattle.std.specs.Prelude.{◌≡◌, ◌<◌, ◌≤◌, length, get_or};
ghost use Rattle.defs.specs.Table.{max_statements};
ghost use Rattle.defs.specs.Order.{cutoffs};
ghost use Rattle.blocks.specs.Counted.{Counted};

// The cutoffs form a constant table, each five times the one before.
const CUTOFFS: [usize; 5] = [20, 100, 500, 2500, 12500];

// The count i since the last cutoff, and which cutoff is in force.
#[derive(Clone, Copy, Debug, PartialEq, Eq)]
pub struct Counter {
    pub i: usize,
    pub level: usize,
}

pub fn cutoff_at(level: usize) -> usize
    requires { level < length cutoffs }
    ensures { result ≡ get_or cutoffs level 0 }
{
    CUTOFFS[level]
}

// Let i be the theorem's floating count; while cutoff ≤ i, take cutoff from i and go to the next cutoff.
pub fn start_at(floatings: usize) -> Counter
    requires { floatings ≤ max_statements }
    ensures { Counted floatings result.i result.level }
{
    let mut i = floatings;
    let mut level: usize = 0;
    while cutoff_at(level) <= i {
        i -= cutoff_at(level);
        level += 1;
    }
    Counter { i, level }
}
