// Document 01's table E, and E plus an unreachable entry, through the code: parents, distances, the four step lists, the letters read
// back, label list and letters, the five texts; then its other marked cases and run values. Crate defs proves what the definitions
// give for the marked cases; here the code is run, and what it prints is stored.
#![tactic(auto)]

use answers::{Refusal, Written, WrittenTwo};
use layout::Layout;
use std::fmt::Display;
use std::io;

// `wa` floating, `ha` essential, `op` (`wx`, `wy`), `wx`, `wy` floating, `hx` essential, `ru` (`wx`, `hx`), `th` (`wa`, `ha`);
// entries wa; op(0,0); op(1,1); ha; ru(2,3); QED 4.
const TABLE_E: [u32; 77] = [
    8, 6, 5, 6, 10, 50, 56, 71, 7, 4, 1, 0, 2, 0, 0, 2, 2, 2, 0, 0, 0, 4, 2, 0, 2, 1, 6, 2, 2, 0,
    1, 8, 2, 2, 0, 2, 10, 2, 2, 0, 0, 12, 2, 2, 2, 0, 14, 2, 4, 2, 3, 4, 3, 5, 0, 1, 0, 0, 0, 2, 0,
    2, 2, 2, 2, 1, 4, 0, 6, 4, 2, 0, 0, 1, 1, 2, 3,
];

// E plus the unreachable entry op(2,3).
const TABLE_E2: [u32; 82] = [
    8, 6, 6, 8, 10, 50, 56, 74, 7, 4, 1, 0, 2, 0, 0, 2, 2, 2, 0, 0, 0, 4, 2, 0, 2, 1, 6, 2, 2, 0,
    1, 8, 2, 2, 0, 2, 10, 2, 2, 0, 0, 12, 2, 2, 2, 0, 14, 2, 4, 2, 3, 4, 3, 5, 0, 1, 0, 0, 0, 2, 0,
    2, 2, 2, 2, 1, 4, 0, 6, 4, 2, 2, 6, 2, 0, 0, 1, 1, 2, 3, 2, 3,
];

// The smallest table on which it shows that blocks start from the floating count: 19 essentials in the theorem's list and no floating;
// entries t; u(0); u(1). Counting all hypotheses would close a block after the most used label, u, and list it first.
const TABLE_BLOCKS: [u32; 151] = [
    22, 20, 3, 2, 10, 120, 140, 149, 21, 2, 2, 0, 1, 0, 0, 2, 1, 1, 0, 0, 2, 2, 1, 0, 0, 2, 3, 1,
    0, 0, 2, 4, 1, 0, 0, 2, 5, 1, 0, 0, 2, 6, 1, 0, 0, 2, 7, 1, 0, 0, 2, 8, 1, 0, 0, 2, 9, 1, 0, 0,
    2, 10, 1, 0, 0, 2, 11, 1, 0, 0, 2, 12, 1, 0, 0, 2, 13, 1, 0, 0, 2, 14, 1, 0, 0, 2, 15, 1, 0, 0,
    2, 16, 1, 0, 0, 2, 17, 1, 0, 0, 2, 18, 1, 0, 0, 0, 19, 1, 0, 0, 0, 20, 1, 0, 1, 0, 21, 1, 1,
    19, 0, 0, 1, 2, 3, 4, 5, 6, 7, 8, 9, 10, 11, 12, 13, 14, 15, 16, 17, 18, 19, 0, 0, 20, 0, 1,
    20, 1, 1, 0, 1,
];

const LABELS: [u8; 16] = *b"wahaopwxwyhxruth";

// Up to so many numbers, a blank before each, then a newline; past the end of the slice nothing is printed.
fn print_numbers<T: Display>(rt: &impl Print, numbers: &[T], count: usize) -> io::Result<()> {
    for number in &numbers[..count.min(numbers.len())] {
        print!(rt; " {number}")?;
    }
    println!(rt)
}

// What is answered, the number of the answer, and the length that it wrote.
fn print_answer(rt: &impl Print, what: &str, number: u32, length: usize) -> io::Result<()> {
    print!(rt; "{what} answer {number}, length {length}:")
}

// An answer, and what it wrote.
fn print_written<T: Display>(
    rt: &impl Print,
    what: &str,
    answer: Result<usize, Refusal>,
    out: &[T],
) -> io::Result<()> {
    let Written { number, length } = Written::from(answer);
    print_answer(rt, what, number, length)?;
    print_numbers(rt, out, length)
}

fn show_parents(rt: &impl Print, words: &[u32]) -> io::Result<()> {
    let mut out = [0u32; 8];
    let answer = counts::parents::parents(words, &LABELS, &mut out);
    print_written(rt, "parents", answer, &out)
}

fn show_distances(rt: &impl Print, words: &[u32]) -> io::Result<()> {
    let mut out = [0u16; 8];
    let answer = counts::distances::distances(words, &LABELS, &mut out);
    print_written(rt, "distances", answer, &out)
}

// A step list, written by `write` into an output with a working slice.
fn show_list<F: FnOnce(&mut [u32], &mut [u32]) -> Result<usize, Refusal>>(
    rt: &impl Print,
    what: &str,
    write: F,
) -> io::Result<()>
    requires { F.IsAlwaysCallable write }
{
    let mut work = [0u32; 256];
    let mut out = [0u32; 64];
    let answer = write(&mut work, &mut out);
    print_written(rt, what, answer, &out)
}

fn show_normal(rt: &impl Print, words: &[u32], explicit: bool) -> io::Result<()> {
    show_list(rt, "normal", |work, out| {
        lists::normal::normal_list(words, &LABELS, explicit, work, out)
    })
}

fn show_packed(rt: &impl Print, words: &[u32], explicit: bool) -> io::Result<()> {
    show_list(rt, "packed", |work, out| {
        lists::packed::packed_list(words, &LABELS, explicit, work, out)
    })
}

// The letters `AACZECBD` with the label list `op`, `ru`, decoded, and what is decoded read into entries and children.
fn show_reading(rt: &impl Print, words: &[u32]) -> io::Result<()> {
    let list = [2u32, 6];
    let mut steps = [0u32; 35];
    let decoded = decode::decode(words, &LABELS, &list, b"AACZECBD", &mut steps);
    print_written(rt, "decoded", decoded, &steps)?;
    let mut work = [0u32; 16];
    let mut entries = [0u32; 18];
    let mut children = [0u32; 8];
    let read = replay::replay(
        words,
        &LABELS,
        &steps,
        &mut work,
        &mut entries,
        &mut children,
    );
    let read = WrittenTwo::from(read);
    print_answer(rt, "entries", read.number, read.first)?;
    print_numbers(rt, &entries, read.first)?;
    print_answer(rt, "children", read.number, read.second)?;
    print_numbers(rt, &children, read.second)
}

// Bytes up to a length; past the end of the slice nothing is printed.
fn print_bytes(rt: &impl Print, bytes: &[u8], count: usize) -> io::Result<()> {
    if count <= bytes.len() {
        rt.write_all(&bytes[..count])?;
    }
    println!(rt)
}

fn show_letters(rt: &impl Print, words: &[u32]) -> io::Result<()> {
    let mut work = [0u32; 256];
    let mut sums = [0u16; 675];
    let mut list = [0u32; 8];
    let mut letters = [0u8; 64];
    let answer = order::label_letters(
        words,
        &LABELS,
        Layout::standard(),
        &mut work,
        &mut sums,
        &mut list,
        &mut letters,
    );
    let answer = WrittenTwo::from(answer);
    print_answer(rt, "labels", answer.number, answer.first)?;
    print_numbers(rt, &list, answer.first)?;
    print_answer(rt, "letters", answer.number, answer.second)?;
    print!(rt; " ")?;
    print_bytes(rt, &letters, answer.second)
}

fn show_text(
    rt: &impl Print,
    words: &[u32],
    labels: &[u8],
    style: u32,
    layout: Layout,
) -> io::Result<()> {
    let mut work = [0u32; 256];
    let mut sums = [0u16; 1725];
    let mut out = [0u8; 256];
    let answer = text::text(words, labels, style, layout, &mut work, &mut sums, &mut out);
    let Written { number, length } = Written::from(answer);
    print_answer(rt, "text", number, length)?;
    println!(rt)?;
    print_bytes(rt, &out, length)
}

fn show_texts(rt: &impl Print, words: &[u32]) -> io::Result<()> {
    show_text(rt, words, &LABELS, 0, Layout::standard())?;
    show_text(rt, words, &LABELS, 1, Layout::standard())?;
    show_text(rt, words, &LABELS, 2, Layout::standard())?;
    show_text(rt, words, &LABELS, 3, Layout::standard())?;
    show_text(rt, words, &LABELS, 4, Layout::standard())?;
    let narrow = Layout {
        width: 16,
        indent: 6,
        first: 0,
    };
    show_text(rt, words, &LABELS, 0, narrow)
}

// 19 is `T`, 20 `UA`, 119 `YT`, 120 `UUA`.
fn show_code(rt: &impl Print, v: u32) -> io::Result<()> {
    let mut out = [0u8; 13];
    let end = letters::code::put_code(v, 0, &mut out);
    print!(rt; "code ")?;
    print_bytes(rt, &out, end)
}

// Costs 5, 3, 4, 2 with room 7 choose the second and third: their places end the sums.
fn show_choice(rt: &impl Print) -> io::Result<()> {
    let costs = [5u32, 3, 4, 2];
    let block = [0u32, 1, 2, 3];
    let mut sums = [0u16; 40];
    let choice = choice::choose(&costs, &block, 7, &mut sums);
    let total = choice.total;
    print!(rt; "chosen, of total {total}:")?;
    let start = choice.start.min(sums.len());
    print_numbers(rt, &sums[start..], sums.len())
}

// A table of one entry, whose label has 73 or 74 bytes; the theorem's label is the last byte.
fn show_long(rt: &impl Print, length: u32, labels: &[u8]) -> io::Result<()> {
    let words = [
        2, 0, 1, 0, 10, 20, 20, 23, 1, 0, 0, 0, length, 0, 0, 0, length, 1, 0, 0, 0, 0, 0u32,
    ];
    show_text(rt, &words, labels, 0, Layout::standard())
}

fn show_others(rt: &impl Print) -> io::Result<()> {
    show_code(rt, 19)?;
    show_code(rt, 20)?;
    show_code(rt, 119)?;
    show_code(rt, 120)?;
    show_choice(rt)?;
    let mut labels = [b'a'; 75];
    labels[73] = b't';
    show_long(rt, 73, &labels[..74])?;
    labels[73] = b'a';
    labels[74] = b't';
    show_long(rt, 74, &labels)?;
    println!(rt; "blocks start from the floating count")?;
    show_text(
        rt,
        &TABLE_BLOCKS,
        b"abcdefghijklmnopqrstuv",
        0,
        Layout::standard(),
    )?;
    let no_entry = [1, 0, 0, 0, 10, 15, 15, 15, 0, 0, 0, 0, 1, 0, 0u32];
    let number = table_check::check(&no_entry, b"t")
        .err()
        .map_or(0, Refusal::number);
    println!(rt; "n = 0: {number}")
}

fn show(rt: &impl Print, words: &[u32]) -> io::Result<()> {
    show_parents(rt, words)?;
    show_distances(rt, words)?;
    show_normal(rt, words, false)?;
    show_packed(rt, words, false)?;
    show_normal(rt, words, true)?;
    show_packed(rt, words, true)?;
    show_reading(rt, words)?;
    show_letters(rt, words)?;
    show_texts(rt, words)
}

fn main(rt: HostRuntime) -> io::Result<()> {
    println!(rt; "E")?;
    show(&rt, &TABLE_E)?;
    println!(rt; "E plus unreachable op(2,3)")?;
    show(&rt, &TABLE_E2)?;
    println!(rt; "others")?;
    show_others(&rt)
}
