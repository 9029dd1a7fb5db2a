// The command parents: the parent count of each entry, a line each.
ghost use Rattle.std.specs.Prelude.{IfOk};
ghost use Rattle.io.specs.Counts.{IsPrefixLen};

use crate::limits::MOST_ENTRIES;
use crate::rows::print_counted;
use answers::Refusal;

// The library's operation; what it wrote stands at the front of the output.
fn count(words: &[u32], labels: &[u8], out: &mut [u32]) -> Result<usize, Refusal>
    ensures { IfOk result (λ count. IsPrefixLen count out.new) }
{
    counts::parents::parents(words, labels, out)
}

fn show(rt: &(impl Print + Eprint), words: &[u32], labels: &[u8], out: &mut [u32]) {
    let answer = count(words, labels, out);
    print_counted(rt, answer, &out[..], b"done: parents of each entry\n");
}

pub fn run(rt: &(impl Print + Eprint), words: &[u32], labels: &[u8]) {
    let mut out = [0u32; MOST_ENTRIES];
    show(rt, words, labels, &mut out);
}
