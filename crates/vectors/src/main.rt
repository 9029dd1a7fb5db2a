// Stored answers of the Rust for tables of all sizes, each compared with what the library answers. Standard input has them; a line is
// printed for each that differs, and at the end how many there were. tests/vectors makes the data.
#![tactic(auto)]

mod compare; // compare.rt: the stored answers of one table, compared
mod hash; // hash.rt: the hash by which an answer is stored
mod input; // input.rt: standard input, read whole
mod operations; // operations.rt: what the library answers
mod printing; // printing.rt: text printed
mod tally; // tally.rt: how far the data is compared, and what came of it

use compare::compare_table;
use input::read_full;
use printing::print;
use std::io::Read;
use tally::Tally;

// The sizes of the program's arrays, which have to stand in 8 MiB of stack. The stored tables and answers fit them.
const DATA_BYTES: usize = 1600000;

const TABLE_WORDS: usize = 65536;

const WORK_WORDS: usize = 262144;

const WORK_SUMS: usize = 262144;

const OUT_WORDS: usize = 131072;

const OUT_BYTES: usize = 524288;

fn compare_tables(
    rt: &impl Print,
    stored: &[u8],
    words: &mut [u32],
    work: &mut [u32],
    sums: &mut [u16],
    out: &mut [u32],
    bytes: &mut [u8],
) -> Tally {
    let mut tally = Tally::nothing();
    while tally.at < stored.len() {
        let at = tally.at;
        tally = compare_table(rt, stored, tally, words, work, sums, out, bytes);
        if !tally.well_formed {
            return tally;
        }
        if tally.at <= at {
            return tally.malformed();
        }
    }
    tally
}

fn compare_all(rt: &impl Print, stored: &[u8]) {
    let mut words = [0u32; TABLE_WORDS];
    let mut work = [0u32; WORK_WORDS];
    let mut sums = [0u16; WORK_SUMS];
    let mut out = [0u32; OUT_WORDS];
    let mut bytes = [0u8; OUT_BYTES];
    let tally = compare_tables(
        rt, stored, &mut words, &mut work, &mut sums, &mut out, &mut bytes,
    );
    tally.print_end(rt);
}

fn compare_input(rt: &impl Print, input: &mut impl Read, stored: &mut [u8]) {
    let size = read_full(input, stored);
    if size == stored.len() {
        print(rt, "more data than the program holds\n");
    }
    compare_all(rt, &stored[..size]);
}

fn main(rt: HostRuntime) {
    let mut stored = [0u8; DATA_BYTES];
    compare_input(&rt, &mut rt.stdin(), &mut stored);
}
