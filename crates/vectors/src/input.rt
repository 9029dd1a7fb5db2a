// Standard input, read whole.
ghost use Rattle.io.specs.Counts.{IsPrefixLen};

use std::io::Read;

// Reads until the slice is full, the input ends or a read fails, and answers how many bytes stand at the front of the slice.
pub fn read_full(input: &mut impl Read, bytes: &mut [u8]) -> usize
    ensures { IsPrefixLen result bytes.new }
{
    let mut done: usize = 0;
    while done < bytes.len() {
        match input.read(&mut bytes[done..]) {
            Ok(0) => break,
            Ok(more) => done += more,
            Err(_) => break,
        }
    }
    done
}
