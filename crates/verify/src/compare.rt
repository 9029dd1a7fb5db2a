// A step list read and compared with what was read before.
ghost use Rattle.std.specs.Prelude.{◌≡◌};
ghost use Rattle.verify.specs.Verdicts.{verdict_of};
ghost use Rattle.verify.specs.Verified.{read_again};

use crate::verdict::{Disagreement, Stage, at_stage};
use replay::replay;

// The entries and the children both have to be those read before.
pub fn read_again(
    words: &[u32],
    labels: &[u8],
    steps: &[u32],
    built: &[u32],
    kids: &[u32],
    work: &mut [u32],
    entries: &mut [u32],
    children: &mut [u32],
    stage: Stage,
) -> Result<(), Disagreement>
    ensures { verdict_of result ≡ read_again stage words.now labels.now steps.now built.now kids.now
        work.old entries.old children.old }
{
    let read = at_stage(stage, replay(words, labels, steps, work, entries, children))?;
    if &entries[..read.first] != built {
        return Err(Disagreement::Differ(stage));
    }
    if &children[..read.second] != kids {
        return Err(Disagreement::Differ(stage));
    }
    Ok(())
}
