// The command list: a step list, a line for each step.
ghost use Rattle.std.specs.Prelude.{IfOk};
ghost use Rattle.io.specs.Counts.{IsPrefixLen};

use crate::arguments::{argument_count, read_argument};
use crate::asked::{Command, Misuse};
use crate::errors::too_large;
use crate::limits::{LIST_WORDS, MOST_STEPS, WORK_WORDS};
use crate::printing::print;
use crate::refusals::refused;
use crate::rows::print_rows;
use answers::Refusal;
use std::env::Env;
use table::limits::STEP_WORDS;

#[derive(Clone, Copy, Debug, PartialEq, Eq)]
pub struct ListKind {
    pub packed: bool,
    pub explicit: bool,
}

fn kind(packed: bool, explicit: bool) -> Option<ListKind> {
    Some(ListKind { packed, explicit })
}

fn kind_named(name: &[u8]) -> Option<ListKind> {
    match name {
        b"normal" => kind(false, false),
        b"packed" => kind(true, false),
        b"explicit" => kind(false, true),
        b"packed-explicit" => kind(true, true),
        _ => None,
    }
}

// The kind is the third argument, and the last.
pub fn read_command(rt: &impl Env) -> Result<Command, Misuse> {
    const FORM: &[u8] = b"list FILE normal|packed|explicit|packed-explicit";
    if argument_count(rt) != 4 {
        return Err(Misuse::Expected(FORM));
    }
    match read_argument(rt, 3, kind_named) {
        Some(kind) => Ok(Command::List(kind)),
        None => Err(Misuse::Expected(FORM)),
    }
}

// The library's operations; what they wrote stands at the front of the output.
fn step_list(
    words: &[u32],
    labels: &[u8],
    kind: ListKind,
    work: &mut [u32],
    out: &mut [u32],
) -> Result<usize, Refusal>
    ensures { IfOk result (λ count. IsPrefixLen count out.new) }
{
    if kind.packed {
        return lists::packed::packed_list(words, labels, kind.explicit, work, out);
    }
    lists::normal::normal_list(words, labels, kind.explicit, work, out)
}

fn show(
    rt: &(impl Print + Eprint),
    words: &[u32],
    labels: &[u8],
    kind: ListKind,
    work: &mut [u32],
    out: &mut [u32],
) {
    match step_list(words, labels, kind, work, out) {
        Ok(length) => {
            print(rt, b"done: steps of five numbers\n");
            print_rows(rt, &out[..length], STEP_WORDS);
        }
        Err(Refusal::ShortOutput) => too_large(rt, b"the list has more steps than", MOST_STEPS),
        Err(refusal) => refused(rt, refusal),
    }
}

pub fn run(rt: &(impl Print + Eprint), words: &[u32], labels: &[u8], kind: ListKind) {
    let mut work = [0u32; WORK_WORDS];
    let mut out = [0u32; LIST_WORDS];
    show(rt, words, labels, kind, &mut work, &mut out);
}
