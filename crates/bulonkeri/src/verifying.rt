// The command verify: the normal list, the packed list, and the letters with their label list, each read back and compared.
ghost use Rattle.layout.specs.Layouts.{layout_of};
ghost use Rattle.verify.specs.Verified.{lent, verified};
ghost use Rattle.answers_said.specs.Lines.{Said};
ghost use Rattle.answers_said.specs.Verdicts.{verdict_lines};

use crate::asked::{Command, Misuse};
use crate::layouts::layout_from;
use crate::limits::{
    ENTRY_WORDS, MOST_STATEMENTS, VERIFY_CHILDREN, VERIFY_LETTERS, VERIFY_NORMAL, VERIFY_PACKED,
    VERIFY_SUMS, WORK_WORDS,
};
use crate::printing::print;
use answers_said::lines::LINE_BYTES;
use answers_said::verdicts::verdict_said;
use layout::Layout;
use std::env::Env;
use verify::Verdict;

// The layout, if any, is the arguments from the third on.
pub fn read_command(rt: &impl Env) -> Result<Command, Misuse> {
    match layout_from(rt, 3) {
        Some(layout) => Ok(Command::Verify(layout)),
        None => Err(Misuse::Expected(
            b"verify FILE [WIDTH INDENT FIRST], each a number up to 100000",
        )),
    }
}

// The lines of the verdict, as they are printed: answers how many bytes they are.
fn answer(
    words: &[u32],
    labels: &[u8],
    layout: Layout,
    work: &mut [u32],
    sums: &mut [u16],
    packed: &mut [u32],
    steps: &mut [u32],
    list: &mut [u32],
    letters: &mut [u8],
    built: &mut [u32],
    kids: &mut [u32],
    entries: &mut [u32],
    children: &mut [u32],
    line: &mut [u8; LINE_BYTES],
) -> usize
    ensures { Said (verdict_lines (verified words.now labels.now (layout_of layout)
        (lent work.old sums.old packed.old steps.old list.old letters.old
        built.old kids.old entries.old children.old))) result line.new }
{
    let verdict = verify::verify(
        words, labels, layout, work, sums, packed, steps, list, letters, built, kids, entries,
        children,
    );
    verdict_said(Verdict::from(verdict), line)
}

fn show(
    rt: &(impl Print + Eprint),
    words: &[u32],
    labels: &[u8],
    layout: Layout,
    work: &mut [u32],
    sums: &mut [u16],
    packed: &mut [u32],
    steps: &mut [u32],
    list: &mut [u32],
    letters: &mut [u8],
    built: &mut [u32],
    kids: &mut [u32],
    entries: &mut [u32],
    children: &mut [u32],
) {
    let mut line = [0u8; LINE_BYTES];
    let length = answer(
        words, labels, layout, work, sums, packed, steps, list, letters, built, kids, entries,
        children, &mut line,
    );
    print(rt, &line[..length]);
}

pub fn run(rt: &(impl Print + Eprint), words: &[u32], labels: &[u8], layout: Layout) {
    let mut work = [0u32; WORK_WORDS];
    let mut sums = [0u16; VERIFY_SUMS];
    let mut packed = [0u32; VERIFY_PACKED];
    let mut steps = [0u32; VERIFY_NORMAL];
    let mut list = [0u32; MOST_STATEMENTS];
    let mut letters = [0u8; VERIFY_LETTERS];
    let mut built = [0u32; ENTRY_WORDS];
    let mut kids = [0u32; VERIFY_CHILDREN];
    let mut entries = [0u32; ENTRY_WORDS];
    let mut children = [0u32; VERIFY_CHILDREN];
    show(
        rt,
        words,
        labels,
        layout,
        &mut work,
        &mut sums,
        &mut packed,
        &mut steps,
        &mut list,
        &mut letters,
        &mut built,
        &mut kids,
        &mut entries,
        &mut children,
    );
}
