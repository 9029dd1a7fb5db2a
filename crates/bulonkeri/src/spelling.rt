// The command letters: the label list, and the letters of the packed list.
ghost use Rattle.std.specs.Prelude.{take, IfOk};
ghost use Rattle.io.specs.Counts.{IsPrefixLen};
ghost use Rattle.bulonkeri.specs.Listed.{LabelIn, Listed};

use crate::asked::{Command, Misuse};
use crate::layouts::layout_from;
use crate::limits::{LETTER_BYTES, MOST_STATEMENTS, WORK_SUMS, WORK_WORDS};
use crate::printing::print;
use crate::refusals::refused;
use answers::{Lengths, Refusal};
use layout::Layout;
use std::env::Env;
use table::StatementNo;
use table::sections::statement_section;
use table::statements::label_of;

// The layout, if any, is the arguments from the third on.
pub fn read_command(rt: &impl Env) -> Result<Command, Misuse> {
    match layout_from(rt, 3) {
        Some(layout) => Ok(Command::Letters(layout)),
        None => Err(Misuse::Expected(
            b"letters FILE [WIDTH INDENT FIRST], each a number up to 100000",
        )),
    }
}

// The library's operation; what it wrote stands at the front of the outputs.
fn label_letters(
    words: &[u32],
    labels: &[u8],
    layout: Layout,
    work: &mut [u32],
    sums: &mut [u16],
    list: &mut [u32],
    letters: &mut [u8],
) -> Result<Lengths, Refusal>
    ensures prefix_len { IfOk result (λ lengths. IsPrefixLen lengths.first list.new) }
    ensures prefix_len_2 { IfOk result (λ lengths. IsPrefixLen lengths.second letters.new) }
    ensures listed { IfOk result (λ lengths. Listed words.now labels.now (take lengths.first list.new)) }
{
    order::label_letters(words, labels, layout, work, sums, list, letters)
}

// The label of a statement, and a newline.
fn print_label(
    rt: &(impl Print + Eprint),
    statements: &[u32],
    labels: &[u8],
    k: StatementNo,
) -> bool
    requires { LabelIn statements.now labels.now k.0 }
{
    if !print(rt, label_of(statements, labels, k)) {
        return false;
    }
    print(rt, b"\n")
}

// The labels of the list, a line each. Stops where standard output takes no more.
fn print_labels(rt: &(impl Print + Eprint), words: &[u32], labels: &[u8], list: &[u32])
    requires { Listed words.now labels.now list.now }
{
    let statements = statement_section(words);
    for k in list {
        if !print_label(rt, statements, labels, StatementNo(*k)) {
            return;
        }
    }
}

fn show(
    rt: &(impl Print + Eprint),
    words: &[u32],
    labels: &[u8],
    layout: Layout,
    work: &mut [u32],
    sums: &mut [u16],
    list: &mut [u32],
    letters: &mut [u8],
) {
    match label_letters(words, labels, layout, work, sums, list, letters) {
        Ok(lengths) => {
            print(rt, b"done: labels, a line each, then the letters\n");
            print_labels(rt, words, labels, &list[..lengths.first]);
            print(rt, &letters[..lengths.second]);
            print(rt, b"\n");
        }
        Err(refusal) => refused(rt, refusal),
    }
}

pub fn run(rt: &(impl Print + Eprint), words: &[u32], labels: &[u8], layout: Layout) {
    let mut work = [0u32; WORK_WORDS];
    let mut sums = [0u16; WORK_SUMS];
    let mut list = [0u32; MOST_STATEMENTS];
    let mut letters = [0u8; LETTER_BYTES];
    show(
        rt,
        words,
        labels,
        layout,
        &mut work,
        &mut sums,
        &mut list,
        &mut letters,
    );
}
