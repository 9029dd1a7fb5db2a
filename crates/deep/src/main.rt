// The deepest table that document 01 allows, walked within a program's stack: 8,192 entries, each the only child of the next. It prints
// what the explicit packed list answers, and its first and last step.
#![tactic(auto)]

ghost use Rattle.std.specs.Prelude.{◌+◌, ◌≤◌};

use answers::Written;
use std::io;

const ENTRIES: u32 = 8192;

// Where the entry section and the child section start.
const FIRST_ENTRY: usize = 26;

const FIRST_CHILD: usize = 24602;

// Statements `a` floating, `b` with hypothesis `c`, `c` floating; theorem `b`, QED the last entry. The entries follow.
const HEAD: [u32; 26] = [
    3, 1, 8192, 8191, 10, 25, 26, 24602, 1, 8191, 1, 0, 1, 0, 0, 0, 1, 1, 0, 1, 1, 2, 1, 1, 0, 2,
];

fn put_head(words: &mut [u32; 32793]) {
    words[..FIRST_ENTRY].copy_from_slice(&HEAD);
}

// Entry 0 is `a`, which has no words but 0; each later one is `b` of the one before.
fn put_chain(words: &mut [u32; 32793]) {
    for e in 1..ENTRIES {
        let at = FIRST_ENTRY + 3 * e as usize;
        let child = FIRST_CHILD + e as usize - 1;
        words[at] = 1;
        words[at + 1] = e - 1;
        words[at + 2] = 1;
        words[child] = e - 1;
    }
}

fn print_step(rt: &impl Print, out: &[u32; 40960], at: usize) -> io::Result<()>
    requires { at + 5 ≤ 40960 }
{
    for word in &out[at..at + 5] {
        print!(rt; " {word}")?;
    }
    Ok(())
}

fn show(rt: &impl Print, words: &[u32; 32793]) -> io::Result<()> {
    let mut work = [0u32; 131096];
    let mut out = [0u32; 40960];
    let answer = lists::packed::packed_list(words, b"abc", true, &mut work, &mut out);
    let Written { number, length } = Written::from(answer);
    print!(rt; "packed explicit answer {number}, length {length}: first")?;
    print_step(rt, &out, 0)?;
    print!(rt; ", last")?;
    print_step(rt, &out, 40955)?;
    println!(rt)
}

fn main(rt: HostRuntime) -> io::Result<()> {
    let mut words = [0u32; 32793];
    put_head(&mut words);
    put_chain(&mut words);
    show(&rt, &words)
}
