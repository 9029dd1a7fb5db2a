// A table file written.
ghost use Rattle.std.specs.Prelude.{◌≤◌, length};
ghost use Rattle.io.specs.Counts.{IsPrefixLen};
ghost use Rattle.new_table.specs.NewTables.{Renewable};

use new_table::{new_header, whole_length};
use std::io;
use std::io::Write;
use table::limits::HEADER_WORDS;
use table_file::{bytes_of, encode};

const CHUNK_BYTES: usize = 4096;

const CHUNK_WORDS: usize = 1024;

// The bytes of the words, all of which fit.
fn encoded(words: &[u32], bytes: &mut [u8; CHUNK_BYTES]) -> usize
    requires { length words.now ≤ 1024 }
    ensures { IsPrefixLen result bytes.new }
{
    encode(words, bytes)
}

fn write_chunk(file: &mut impl Write, words: &[u32]) -> io::Result<()>
    requires { length words.now ≤ 1024 }
{
    let mut bytes = [0u8; CHUNK_BYTES];
    let size = encoded(words, &mut bytes);
    file.write_all(&bytes[..size])
}

// Writes the words, all of them unless there is an error.
fn write_words(file: &mut impl Write, words: &[u32]) -> io::Result<()> {
    for chunk in words.chunks(CHUNK_WORDS) {
        write_chunk(file, chunk)?;
    }
    Ok(())
}

// The count of words, with which a table file begins.
fn write_count(file: &mut impl Write, count: u32) -> io::Result<()> {
    let four = bytes_of(count);
    file.write_all(&four)
}

// The table file of the statements and hypotheses of `words` with new entries and children, all of it unless there is an error.
pub fn write_table(
    file: &mut impl Write,
    words: &[u32],
    labels: &[u8],
    entries: &[u32],
    children: &[u32],
) -> io::Result<()>
    requires { Renewable words.now entries.now children.now }
{
    let from = words[6] as usize;
    let header = new_header(words, entries, children);
    write_count(file, whole_length(words, entries, children))?;
    write_words(file, &header)?;
    write_words(file, &words[HEADER_WORDS..from])?;
    write_words(file, entries)?;
    write_words(file, children)?;
    file.write_all(labels)
}
