// The command distances: the distance of each entry from QED, a line each.
ghost use Rattle.std.specs.Prelude.{IfOk};
ghost use Rattle.io.specs.Counts.{IsPrefixLen};

use crate::limits::MOST_ENTRIES;
use crate::rows::print_counted;
use answers::Refusal;

// The library's operation; what it wrote stands at the front of the output.
fn measure(words: &[u32], labels: &[u8], out: &mut [u16]) -> Result<usize, Refusal>
    ensures { IfOk result (λ count. IsPrefixLen count out.new) }
{
    counts::distances::distances(words, labels, out)
}

fn show(rt: &(impl Print + Eprint), words: &[u32], labels: &[u8], out: &mut [u16]) {
    let answer = measure(words, labels, out);
    print_counted(rt, answer, &out[..], b"done: distance of each entry\n");
}

pub fn run(rt: &(impl Print + Eprint), words: &[u32], labels: &[u8]) {
    let mut out = [0u16; MOST_ENTRIES];
    show(rt, words, labels, &mut out);
}
