// Lines that say why nothing was answered: a file, or the program's memory.
ghost use Rattle.std.specs.Prelude.{◌≤◌, length};

use crate::printing::{fail, print};
use answers_said::limits::too_large_said;
use answers_said::lines::LINE_BYTES;
use std::io::{Error, ErrorKind};

// Linux's number of the error that permission is denied. Some others are of the same kind for std.
const EACCES: i32 = 13;

// The reasons that a user meets in words; any other in the words of the system, on standard error.
fn print_reason(rt: &(impl Print + Eprint), error: Error, path: &str) {
    match error.kind() {
        ErrorKind::NotFound => {
            print(rt, b"no such file\n");
        }
        ErrorKind::PermissionDenied if error.raw_os_error() == Some(EACCES) => {
            print(rt, b"not permitted\n");
        }
        ErrorKind::AlreadyExists => {
            print(rt, b"it is there already\n");
        }
        ErrorKind::IsADirectory => {
            print(rt, b"it is a folder\n");
        }
        _ => {
            fail(rt, path, error);
            print(rt, b"standard error says why\n");
        }
    }
}

// What could not be done with the file, and why.
pub fn file_error(rt: &(impl Print + Eprint), what: &str, path: &str, error: Error) {
    print(rt, b"error: cannot ");
    print(rt, what.as_bytes());
    print(rt, b" ");
    print(rt, path.as_bytes());
    print(rt, b": ");
    print_reason(rt, error, path);
}

// What is larger than the program's arrays: `what` ends where their size is to be said.
pub fn too_large(rt: &(impl Print + Eprint), what: &[u8], most: u32)
    requires { length what.now ≤ 64 }
{
    let mut line = [0u8; LINE_BYTES];
    let length = too_large_said(what, most, &mut line);
    print(rt, &line[..length]);
}
