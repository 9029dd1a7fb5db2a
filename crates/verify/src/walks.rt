// The packed list and the normal list, each written and read back. What the packed list gave is kept for the comparisons.
ghost use Rattle.std.specs.Prelude.{◌≡◌};
ghost use Rattle.verify.specs.Verdicts.{verdict_of};
ghost use Rattle.verify.specs.Verified.{packed_way, normal_way, lists_way, packed_gave, built_gave};
ghost use Rattle.verify.specs.Came.{Came};

use crate::compare::read_again;
use crate::verdict::{Disagreement, Stage, at_stage};
use lists::normal::normal_list;
use lists::packed::packed_list;
use replay::replay;

// How many words the packed list filled, how many the entries that it was read as, how many their children.
#[derive(Clone, Copy, Debug, PartialEq, Eq)]
pub struct Kept {
    pub packed: usize,
    pub built: usize,
    pub kids: usize,
}

// The packed list, written and read.
fn read_packed(
    words: &[u32],
    labels: &[u8],
    work: &mut [u32],
    packed: &mut [u32],
    built: &mut [u32],
    kids: &mut [u32],
) -> Result<Kept, Disagreement>
    ensures { Came (packed_way words.now labels.now work.old packed.old built.old kids.old)
        (packed_gave words.now labels.now work.old packed.old)
        (built_gave words.now labels.now work.old packed.old built.old kids.old)
        packed.new built.new kids.new result }
{
    let list = packed_list(words, labels, false, work, packed);
    let length = at_stage(Stage::PackedList, list)?;
    let answer = replay(words, labels, &packed[..length], work, built, kids);
    let read = at_stage(Stage::PackedRead, answer)?;
    Ok(Kept {
        packed: length,
        built: read.first,
        kids: read.second,
    })
}

// The normal list, written, read and compared.
fn read_normal(
    words: &[u32],
    labels: &[u8],
    built: &[u32],
    kids: &[u32],
    work: &mut [u32],
    steps: &mut [u32],
    entries: &mut [u32],
    children: &mut [u32],
) -> Result<(), Disagreement>
    ensures { verdict_of result ≡ normal_way words.now labels.now built.now kids.now
        work.old steps.old entries.old children.old }
{
    let list = normal_list(words, labels, false, work, steps);
    let length = at_stage(Stage::NormalList, list)?;
    read_again(
        words,
        labels,
        &steps[..length],
        built,
        kids,
        work,
        entries,
        children,
        Stage::NormalRead,
    )
}

// Both lists: what the packed list gave is kept where the normal list was read as the same.
pub fn read_lists(
    words: &[u32],
    labels: &[u8],
    work: &mut [u32],
    packed: &mut [u32],
    steps: &mut [u32],
    built: &mut [u32],
    kids: &mut [u32],
    entries: &mut [u32],
    children: &mut [u32],
) -> Result<Kept, Disagreement>
    ensures { Came (lists_way words.now labels.now work.old packed.old steps.old
        built.old kids.old entries.old children.old)
        (packed_gave words.now labels.now work.old packed.old)
        (built_gave words.now labels.now work.old packed.old built.old kids.old)
        packed.new built.new kids.new result }
{
    let kept = read_packed(words, labels, work, packed, built, kids)?;
    read_normal(
        words,
        labels,
        &built[..kept.built],
        &kids[..kept.kids],
        work,
        steps,
        entries,
        children,
    )?;
    Ok(kept)
}
