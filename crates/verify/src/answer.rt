// The public operation: the verdict on the three ways, and all slices lent zero, whatever it is.
ghost use Rattle.std.specs.Prelude.{◌≡◌};
ghost use Rattle.layout.specs.Layouts.{layout_of};
ghost use Rattle.verify.specs.Verdicts.{verdict_of};
ghost use Rattle.verify.specs.Verified.{lent};
ghost use Rattle.verify.specs.Verification.{wiped, Verification};

use crate::verdict::Disagreement;
use crate::ways::read_all;
use layout::Layout;

fn wipe(
    work: &mut [u32],
    sums: &mut [u16],
    packed: &mut [u32],
    steps: &mut [u32],
    list: &mut [u32],
    letters: &mut [u8],
    built: &mut [u32],
    kids: &mut [u32],
    entries: &mut [u32],
    children: &mut [u32],
)
    ensures { lent work.new sums.new packed.new steps.new list.new
        letters.new built.new kids.new entries.new children.new
        ≡ wiped (lent work.old sums.old packed.old steps.old list.old
        letters.old built.old kids.old entries.old children.old) }
{
    work.fill(0);
    sums.fill(0);
    packed.fill(0);
    steps.fill(0);
    list.fill(0);
    letters.fill(0);
    built.fill(0);
    kids.fill(0);
    entries.fill(0);
    children.fill(0);
}

// The packed list is written to packed, the normal list and later the decoded list to steps. What the packed list is read as stands
// in built and kids, what the others are read as in entries and children.
// As it is: (d) a struct of the ten slices asks ten clauses more of each function that takes it: that each field is the slice lent.
pub fn verify(
    words: &[u32],
    labels: &[u8],
    layout: Layout,
    work: &mut [u32],
    sums: &mut [u16],
    packed: &mut [u32],
    steps: &mut [u32],
    list: &mut [u32],
    letters: &mut [u8],
    built: &mut [u32],
    kids: &mut [u32],
    entries: &mut [u32],
    children: &mut [u32],
) -> Result<(), Disagreement>
    ensures { Verification words.now labels.now (layout_of layout)
        (lent work.old sums.old packed.old steps.old list.old
        letters.old built.old kids.old entries.old children.old)
        (lent work.new sums.new packed.new steps.new list.new
        letters.new built.new kids.new entries.new children.new) (verdict_of result) }
{
    let verdict = read_all(
        words, labels, layout, work, sums, packed, steps, list, letters, built, kids, entries,
        children,
    );
    wipe(
        work, sums, packed, steps, list, letters, built, kids, entries, children,
    );
    verdict
}
