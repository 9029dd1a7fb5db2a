// All steps of a list, one after another.
ghost use Rattle.std.specs.Prelude.{◌≡◌, ◌+◌, ◌*◌, ◌≤◌, length};
ghost use Rattle.defs.specs.Steps.{step_size};
ghost use Rattle.defs.specs.Replay.{steps_in, replayed};
ghost use Rattle.replay.specs.Turns.{Readable, turn_of, Ended};

use crate::turn::{State, one_step};
use answers::Refusal;
use store::place::Store;

// Starts with no entries and an empty stack. At the end 18, unless exactly one item is on the stack.
pub fn all_steps(
    words: &[u32],
    steps: &[u32],
    half: usize,
    work: &mut [u32],
    entries: &mut [u32],
    children: &mut [u32],
) -> Result<State, Refusal>
    requires readable { Readable words.now }
    requires half_value { (step_size * half ≡ length steps.now) × (half + half ≤ length work.old) }
    ensures { (turn_of half work.new entries.new children.new result
        ≡ replayed words.now (length entries.old) (length children.old) (steps_in steps.now))
        × Ended entries.new children.new result }
{
    let mut state = State {
        store: Store { built: 0, kids: 0 },
        height: 0,
        marks: 0,
    };
    for k in 0..half {
        state = one_step(words, steps, k, half, work, entries, children, state)?;
    }
    if state.height != 1 {
        return Err(Refusal::BadStack);
    }
    Ok(state)
}
