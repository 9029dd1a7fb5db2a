// The program's arguments: its own name is argument 0.
use std::env::{Env, FillError};
use std::io::{Error, ErrorKind};
use std::str::from_utf8;

// A file's name has fewer bytes, on Linux.
pub const NAME_BYTES: usize = 4096;

// Linux's numbers of two errors: a name is too long, an argument is not there.
const ENAMETOOLONG: i32 = 36;

const EINVAL: i32 = 22;

fn is_there(rt: &impl Env, i: usize) -> bool {
    let mut byte = [0u8; 1];
    !matches!(rt.arg(i, &mut byte), Err(FillError::NotPresent))
}

// How many arguments there are.
pub fn argument_count(rt: &impl Env) -> usize {
    for i in 0..usize::MAX {
        if !is_there(rt, i) {
            return i;
        }
    }
    usize::MAX
}

// A name as text: std takes no other for a file's.
fn name_text(name: &[u8]) -> Result<&str, Error> {
    match from_utf8(name) {
        Ok(text) => Ok(text),
        Err(_) => Err(Error::new(ErrorKind::InvalidFilename, "The name is not UTF-8 text")),
    }
}

// The file's name that argument i is, kept in `name`.
pub fn name_argument<'a>(
    rt: &impl Env,
    i: usize,
    name: &'a mut [u8; NAME_BYTES],
) -> Result<&'a str, Error> {
    match rt.arg(i, name) {
        Ok(length) => name_text(&name[..length]),
        Err(FillError::TooLong) => Err(Error::from_raw_os_error(ENAMETOOLONG)),
        Err(FillError::NotPresent) => Err(Error::from_raw_os_error(EINVAL)),
    }
}

// What `read` makes of argument i; nothing of one that is not there, or longer than 16 bytes.
pub fn read_argument<T, F: FnOnce(&[u8]) -> Option<T>>(
    rt: &impl Env,
    i: usize,
    read: F,
) -> Option<T>
    requires { F.IsAlwaysCallable read }
{
    let mut text = [0u8; 16];
    match rt.arg(i, &mut text) {
        Ok(length) => read(&text[..length]),
        Err(_) => None,
    }
}
