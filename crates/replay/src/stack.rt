// The working slice of a replay of so many steps: a stack of that many words, then the entry of each mark.
ghost use Rattle.std.specs.Prelude.{◌+◌, ◌<◌, ◌≤◌, length};
ghost use Rattle.replay.specs.Stack.{Pushed};

use table::EntryNo;

// Pushes an entry on the first `from` items. A mark names the entry just pushed. Answers how many marks there are.
pub fn push(
    work: &mut [u32],
    half: usize,
    from: usize,
    marks: usize,
    e: EntryNo,
    mark: u32,
) -> usize
    requires { (from < half) × ((marks < half) × (half + half ≤ length work.old)) }
    ensures { Pushed half from marks e.0 mark work.old work.new result }
{
    work[from] = e.0;
    if mark == 0 {
        return marks;
    }
    work[half + marks] = e.0;
    marks + 1
}
