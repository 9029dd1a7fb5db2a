// The command check: refusals 1 to 7, or what a good table has.
ghost use Rattle.std.specs.Prelude.{◌≤◌, length};
ghost use Rattle.defs.specs.Table.{header_size};

use crate::numbers::print_number;
use crate::printing::print;
use crate::refusals::refused;
use table::header::read_header;
use table_check::check;

fn print_counts(rt: &(impl Print + Eprint), words: &[u32])
    requires { header_size ≤ length words.now }
{
    let header = read_header(words);
    print(rt, b"done: ");
    print_number(rt, header.statements, b' ');
    print(rt, b"statements, ");
    print_number(rt, words[1], b' ');
    print(rt, b"hypothesis references, ");
    print_number(rt, header.entries, b' ');
    print(rt, b"entries, ");
    print_number(rt, words[3], b' ');
    print(rt, b"child references\n");
}

pub fn run(rt: &(impl Print + Eprint), words: &[u32], labels: &[u8]) {
    match check(words, labels) {
        Ok(()) => print_counts(rt, words),
        Err(refusal) => refused(rt, refusal),
    }
}
