// What a replay answers, and what the two outputs and the working slice then hold.
ghost use Rattle.std.specs.Prelude.{◌≡◌, List, [], ◌∷◌, ℕ};
ghost use Rattle.laws.specs.Tools.{zeroed};
ghost use Rattle.answers.specs.Refused.{answer_number, answer_first, answer_second};
ghost use Rattle.defs.specs.Replay.{settled, replay_outcome};
ghost use Rattle.defs.specs.Outcome.{answer_two};
ghost use Rattle.replay.specs.Turns.{turn_of, Ended};

use crate::run::all_steps;
use crate::turn::State;
use answers::{Lengths, Refusal};
use store::place::Store;
use table::limits::STEP_WORDS;
use table_check::check;

// A refusal zeroes both outputs, success the unused output.
fn settle(
    turn: Result<State, Refusal>,
    entries: &mut [u32],
    children: &mut [u32],
) -> Result<Lengths, Refusal>
    requires { Ended entries.old children.old turn }
    ensures { (half : ℕ) (stack work : List ℕ) → answer_two (answer_number result) (answer_first result) (answer_second result) (zeroed work ∷ []) entries.new children.new
        ≡ settled work entries.old children.old (turn_of half stack entries.old children.old turn) }
{
    match turn {
        Err(refusal) => {
            entries.fill(0);
            children.fill(0);
            Err(refusal)
        }
        Ok(state) => {
            let Store { built, kids } = state.store;
            entries[built..].fill(0);
            children[kids..].fill(0);
            Ok(Lengths {
                first: built,
                second: kids,
            })
        }
    }
}

// Tests 1 to 7, a list that is a multiple of five (16), working room twice the steps (14), which change nothing; then the steps.
pub fn replay(
    words: &[u32],
    labels: &[u8],
    steps: &[u32],
    work: &mut [u32],
    entries: &mut [u32],
    children: &mut [u32],
) -> Result<Lengths, Refusal>
    ensures { answer_two (answer_number result) (answer_first result) (answer_second result) (work.new ∷ []) entries.new children.new
        ≡ replay_outcome words.now labels.now steps.now work.old entries.old children.old }
{
    check(words, labels)?;
    if steps.len() % STEP_WORDS != 0 {
        return Err(Refusal::BadList);
    }
    let count = steps.len() / STEP_WORDS;
    if work.len() < 2 * count {
        return Err(Refusal::ShortWork);
    }
    let turn = all_steps(words, steps, count, work, entries, children);
    work.fill(0);
    settle(turn, entries, children)
}
