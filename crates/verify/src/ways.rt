// The letters read and compared with what the packed list gave, and the three ways together.
ghost use Rattle.std.specs.Prelude.{◌≡◌};
ghost use Rattle.layout.specs.Layouts.{layout_of};
ghost use Rattle.verify.specs.Verdicts.{verdict_of};
ghost use Rattle.verify.specs.Verified.{decoded_way, letters_way, lent, verified};

use crate::compare::read_again;
use crate::spelled::decode_letters;
use crate::verdict::{Disagreement, Stage};
use crate::walks::read_lists;
use layout::Layout;

// The decoded list has to be the packed list, and to be read as it was.
fn read_decoded(
    words: &[u32],
    labels: &[u8],
    steps: &[u32],
    packed: &[u32],
    built: &[u32],
    kids: &[u32],
    work: &mut [u32],
    entries: &mut [u32],
    children: &mut [u32],
) -> Result<(), Disagreement>
    ensures { verdict_of result ≡ decoded_way words.now labels.now steps.now packed.now built.now kids.now
        work.old entries.old children.old }
{
    if steps != packed {
        return Err(Disagreement::Differ(Stage::Decoded));
    }
    let stage = Stage::LettersRead;
    read_again(
        words, labels, steps, built, kids, work, entries, children, stage,
    )
}

// The letters with their label list, written, decoded, read and compared.
fn read_letters(
    words: &[u32],
    labels: &[u8],
    layout: Layout,
    packed: &[u32],
    built: &[u32],
    kids: &[u32],
    work: &mut [u32],
    sums: &mut [u16],
    steps: &mut [u32],
    list: &mut [u32],
    letters: &mut [u8],
    entries: &mut [u32],
    children: &mut [u32],
) -> Result<(), Disagreement>
    ensures { verdict_of result ≡ letters_way words.now labels.now (layout_of layout) packed.now built.now kids.now
        work.old sums.old steps.old list.old letters.old entries.old children.old }
{
    let n = decode_letters(words, labels, layout, work, sums, list, letters, steps)?;
    let decoded = &steps[..n];
    read_decoded(
        words, labels, decoded, packed, built, kids, work, entries, children,
    )
}

// The packed list and the normal list, then the letters.
pub fn read_all(
    words: &[u32],
    labels: &[u8],
    layout: Layout,
    work: &mut [u32],
    sums: &mut [u16],
    packed: &mut [u32],
    steps: &mut [u32],
    list: &mut [u32],
    letters: &mut [u8],
    built: &mut [u32],
    kids: &mut [u32],
    entries: &mut [u32],
    children: &mut [u32],
) -> Result<(), Disagreement>
    ensures { verdict_of result ≡ verified words.now labels.now (layout_of layout)
        (lent work.old sums.old packed.old steps.old list.old
        letters.old built.old kids.old entries.old children.old) }
{
    let kept = read_lists(
        words, labels, work, packed, steps, built, kids, entries, children,
    )?;
    read_letters(
        words,
        labels,
        layout,
        &packed[..kept.packed],
        &built[..kept.built],
        &kids[..kept.kids],
        work,
        sums,
        steps,
        list,
        letters,
        entries,
        children,
    )
}
