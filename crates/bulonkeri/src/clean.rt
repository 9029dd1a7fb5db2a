// The command clean: the packed list, read back into entries, and written as a new table: the statements and hypotheses as they
// were, the entries and children that were read, QED the last entry.
ghost use Rattle.std.specs.Prelude.{◌≤◌, length, take, IfOk};
ghost use Rattle.io.specs.Counts.{IsPrefixLen};
ghost use Rattle.new_table.specs.NewTables.{most_entry_words, most_child_words, Renewable};

use crate::arguments::{NAME_BYTES, name_argument};
use crate::errors::file_error;
use crate::limits::{CHILD_WORDS, ENTRY_WORDS, LIST_WORDS, WORK_WORDS};
use crate::numbers::print_number;
use crate::printing::print;
use crate::refusals::refused;
use crate::writing::write_table;
use answers::{Lengths, Refusal};
use lists::packed::packed_list;
use new_table::entry_count;
use std::env::Env;
use std::fs::{Files, OpenOptions, remove_file};
use table_check::check;

// The library's operations; what they wrote stands at the front of the outputs.
fn packed(
    words: &[u32],
    labels: &[u8],
    work: &mut [u32],
    steps: &mut [u32],
) -> Result<usize, Refusal>
    ensures { IfOk result (λ count. IsPrefixLen count steps.new) }
{
    packed_list(words, labels, false, work, steps)
}

fn read_back(
    words: &[u32],
    labels: &[u8],
    steps: &[u32],
    work: &mut [u32],
    entries: &mut [u32],
    children: &mut [u32],
) -> Result<Lengths, Refusal>
    ensures prefix_len { IfOk result (λ lengths. IsPrefixLen lengths.first entries.new) }
    ensures prefix_len_2 { IfOk result (λ lengths. IsPrefixLen lengths.second children.new) }
{
    replay::replay(words, labels, steps, work, entries, children)
}

// A file that is there already is not overwritten, and one that cannot be written whole is removed.
fn store(
    rt: &(impl Files + Print + Eprint),
    path: &str,
    words: &[u32],
    labels: &[u8],
    entries: &[u32],
    children: &[u32],
) -> bool
    requires { Renewable words.now entries.now children.now }
{
    let mut file = match OpenOptions::new()
        .write(true)
        .create_new(true)
        .open(rt, path)
    {
        Ok(file) => file,
        Err(error) => {
            file_error(rt, "make", path, error);
            return false;
        }
    };
    match write_table(&mut file, words, labels, entries, children) {
        Ok(()) => true,
        Err(error) => {
            file_error(rt, "write", path, error);
            let _ = remove_file(rt, path);
            false
        }
    }
}

// The table is stored, and a line says so.
fn store_and_say(
    rt: &(impl Files + Print + Eprint),
    path: &str,
    words: &[u32],
    labels: &[u8],
    entries: &[u32],
    children: &[u32],
)
    requires { Renewable words.now entries.now children.now }
{
    if !store(rt, path, words, labels, entries, children) {
        return;
    }
    print(rt, b"done: ");
    print_number(rt, entry_count(entries), b' ');
    print(rt, b"entries written to ");
    print(rt, path.as_bytes());
    print(rt, b"\n");
}

// The third argument names the new file.
fn store_as_asked(
    rt: &(impl Env + Files + Print + Eprint),
    words: &[u32],
    labels: &[u8],
    entries: &[u32],
    children: &[u32],
)
    requires { Renewable words.now entries.now children.now }
{
    let mut name = [0u8; NAME_BYTES];
    match name_argument(rt, 3, &mut name) {
        Ok(path) => store_and_say(rt, path, words, labels, entries, children),
        Err(error) => file_error(rt, "take the name of", "NEWFILE", error),
    }
}

// The packed list, read back: what stands at the front of the two slices can be written as a new table.
fn renewed(
    words: &[u32],
    labels: &[u8],
    work: &mut [u32],
    steps: &mut [u32],
    entries: &mut [u32],
    children: &mut [u32],
) -> Result<Lengths, Refusal>
    requires { (length entries.old ≤ most_entry_words) × (length children.old ≤ most_child_words) }
    ensures prefix_len { IfOk result (λ lengths. IsPrefixLen lengths.first entries.new) }
    ensures prefix_len_2 { IfOk result (λ lengths. IsPrefixLen lengths.second children.new) }
    ensures renewable { IfOk result (λ lengths. Renewable words.now (take lengths.first entries.new) (take lengths.second children.new)) }
{
    check(words, labels)?;
    let length = packed(words, labels, work, steps)?;
    read_back(words, labels, &steps[..length], work, entries, children)
}

fn renew(
    rt: &(impl Env + Files + Print + Eprint),
    words: &[u32],
    labels: &[u8],
    work: &mut [u32],
    steps: &mut [u32],
    entries: &mut [u32],
    children: &mut [u32],
)
    requires { (length entries.old ≤ most_entry_words) × (length children.old ≤ most_child_words) }
{
    match renewed(words, labels, work, steps, entries, children) {
        Ok(lengths) => store_as_asked(
            rt,
            words,
            labels,
            &entries[..lengths.first],
            &children[..lengths.second],
        ),
        Err(refusal) => refused(rt, refusal),
    }
}

pub fn run(rt: &(impl Env + Files + Print + Eprint), words: &[u32], labels: &[u8]) {
    let mut work = [0u32; WORK_WORDS];
    let mut steps = [0u32; LIST_WORDS];
    let mut entries = [0u32; ENTRY_WORDS];
    let mut children = [0u32; CHILD_WORDS];
    renew(
        rt,
        words,
        labels,
        &mut work,
        &mut steps,
        &mut entries,
        &mut children,
    );
}
