// A table file read: a count of words, that many words, then the label bytes to the end of the file. Where it cannot be read, one
// line says why.
ghost use Rattle.std.specs.Prelude.{◌≡◌, ◌≤◌, length, IfOk, IfSome, Ok};
ghost use Rattle.io.specs.Counts.{IsPrefixLen};

use crate::arguments::{NAME_BYTES, name_argument};
use crate::errors::{file_error, too_large};
use crate::limits::{LABEL_BYTES, TABLE_WORDS};
use crate::printing::print;
use std::env::Env;
use std::fs::{File, Files};
use std::io;
use std::io::Read;
use table_file::{decode, word};

const CHUNK_BYTES: usize = 4096;

// The words of a chunk.
const CHUNK_WORDS: usize = 1024;

// How many words and label bytes a table has.
#[derive(Clone, Copy, Debug, PartialEq, Eq)]
pub struct Loaded {
    pub words: usize,
    pub labels: usize,
}

// Reads until the slice is full or the file ends. Unlike std's read_exact it says how many bytes there were.
fn read_bytes(file: &mut impl Read, bytes: &mut [u8]) -> io::Result<usize>
    ensures { IfOk result (λ count. IsPrefixLen count bytes.new) }
{
    let mut done: usize = 0;
    while done < bytes.len() {
        match file.read(&mut bytes[done..])? {
            0 => break,
            more => done += more,
        }
    }
    Ok(done)
}

fn read_chunk(file: &mut impl Read, chunk: &mut [u8], words: &mut [u32]) -> io::Result<usize>
    ensures { IfOk result (λ count. count ≤ length words.new) }
{
    let size = read_bytes(file, chunk)?;
    Ok(decode(&chunk[..size], words))
}

// Reads as many words as the chunk and the slice hold.
fn read_into(file: &mut impl Read, chunk: &mut [u8], words: &mut [u32]) -> io::Result<usize>
    requires { 4096 ≤ length chunk.old }
    ensures { IfOk result (λ count. count ≤ length words.new) }
{
    if words.len() < CHUNK_WORDS {
        let size = 4 * words.len();
        return read_chunk(file, &mut chunk[..size], words);
    }
    read_chunk(file, chunk, words)
}

fn read_some(file: &mut impl Read, words: &mut [u32]) -> io::Result<usize>
    ensures { IfOk result (λ count. count ≤ length words.new) }
{
    let mut chunk = [0u8; CHUNK_BYTES];
    read_into(file, &mut chunk, words)
}

fn ends_early(rt: &(impl Print + Eprint), path: &str) {
    print(rt, b"error: ");
    print(rt, path.as_bytes());
    print(rt, b" ends before the words that it counts\n");
}

// How many were read, or a line that says why none were.
fn or_say(rt: &(impl Print + Eprint), path: &str, read: io::Result<usize>) -> Option<usize>
    ensures { IfSome result (λ count. read ≡ Ok count) }
{
    match read {
        Ok(count) => Some(count),
        Err(error) => {
            file_error(rt, "read", path, error);
            None
        }
    }
}

// Fills the slice, and answers whether the file had so many words.
fn read_words(
    rt: &(impl Print + Eprint),
    file: &mut impl Read,
    path: &str,
    words: &mut [u32],
) -> bool {
    let mut done: usize = 0;
    while done < words.len() {
        match read_some(file, &mut words[done..]) {
            Ok(0) => {
                ends_early(rt, path);
                return false;
            }
            Ok(more) => done += more,
            Err(error) => {
                file_error(rt, "read", path, error);
                return false;
            }
        }
    }
    true
}

// The first word of the file.
fn read_count(rt: &(impl Print + Eprint), file: &mut impl Read, path: &str) -> Option<usize> {
    let mut four = [0u8; 4];
    let got = read_bytes(file, &mut four);
    if or_say(rt, path, got)? < 4 {
        ends_early(rt, path);
        return None;
    }
    Some(word(&four, 0) as usize)
}

// One byte more: none where the file ends here.
fn read_past(file: &mut impl Read) -> io::Result<usize> {
    let mut one = [0u8; 1];
    read_bytes(file, &mut one)
}

// The label bytes, to the end of the file. An error past them is said before one among them.
fn read_labels(
    rt: &(impl Print + Eprint),
    file: &mut impl Read,
    path: &str,
    labels: &mut [u8],
) -> Option<usize>
    ensures { IfSome result (λ count. IsPrefixLen count labels.new) }
{
    let got = read_bytes(file, labels);
    let past = read_past(file);
    let more = or_say(rt, path, past)?;
    let count = or_say(rt, path, got)?;
    if 0 < more {
        too_large(rt, b"more label bytes than", LABEL_BYTES as u32);
        return None;
    }
    Some(count)
}

fn read_table(
    rt: &(impl Print + Eprint),
    file: &mut impl Read,
    path: &str,
    words: &mut [u32],
    labels: &mut [u8],
) -> Option<Loaded>
    ensures prefix_len { IfSome result (λ loaded. IsPrefixLen loaded.words words.new) }
    ensures prefix_len_2 { IfSome result (λ loaded. IsPrefixLen loaded.labels labels.new) }
{
    let count = read_count(rt, file, path)?;
    if words.len() < count {
        too_large(rt, b"more words than", TABLE_WORDS as u32);
        return None;
    }
    if !read_words(rt, file, path, &mut words[..count]) {
        return None;
    }
    let size = read_labels(rt, file, path, labels)?;
    Some(Loaded {
        words: count,
        labels: size,
    })
}

fn load_from(
    rt: &(impl Files + Print + Eprint),
    path: &str,
    words: &mut [u32],
    labels: &mut [u8],
) -> Option<Loaded>
    ensures prefix_len { IfSome result (λ loaded. IsPrefixLen loaded.words words.new) }
    ensures prefix_len_2 { IfSome result (λ loaded. IsPrefixLen loaded.labels labels.new) }
{
    match File::open(rt, path) {
        Ok(mut file) => read_table(rt, &mut file, path, words, labels),
        Err(error) => {
            file_error(rt, "open", path, error);
            None
        }
    }
}

// The table file that the second argument names; where it cannot be read, a line says why.
pub fn load(
    rt: &(impl Env + Files + Print + Eprint),
    words: &mut [u32],
    labels: &mut [u8],
) -> Option<Loaded>
    ensures prefix_len { IfSome result (λ loaded. IsPrefixLen loaded.words words.new) }
    ensures prefix_len_2 { IfSome result (λ loaded. IsPrefixLen loaded.labels labels.new) }
{
    let mut name = [0u8; NAME_BYTES];
    match name_argument(rt, 2, &mut name) {
        Ok(path) => load_from(rt, path, words, labels),
        Err(error) => {
            file_error(rt, "take the name of", "FILE", error);
            None
        }
    }
}
