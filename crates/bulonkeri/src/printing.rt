// Bytes printed. Where standard output takes no more, standard error says why.
use std::io::{Error, Write};
use std::str::from_utf8;

// No reason of the system's is as long, with the number that std puts behind it.
const REASON_BYTES: usize = 128;

// What std says of an error, zeros behind it.
fn reason_bytes(error: Error) -> [u8; REASON_BYTES] {
    let mut bytes = [0u8; REASON_BYTES];
    let _ = write!(&mut bytes[..], "{error}");
    bytes
}

// The reason in the system's words: std puts the error's number behind them.
fn reason_words(bytes: &[u8]) -> &str {
    let text = from_utf8(bytes).unwrap_or("");
    match text.split_once(" (os error ") {
        Some((words, _)) => words,
        None => text.trim_end_matches('\0'),
    }
}

// Standard error says of what there was which error.
pub fn fail(rt: &impl Eprint, what: &str, error: Error) {
    let bytes = reason_bytes(error);
    let words = reason_words(&bytes);
    let _ = eprintln!(rt; "{what}: {words}");
}

// Answers whether standard output took them all.
pub fn print(rt: &(impl Print + Eprint), text: &[u8]) -> bool {
    match rt.write_all(text) {
        Ok(()) => true,
        Err(error) => {
            fail(rt, "standard output", error);
            false
        }
    }
}
