// The letters of a number (document 01, "Code of v").
ghost use Rattle.std.specs.Prelude.{◌≡◌, [], ◌∷◌, ◌<◌, ◌≤◌, length, drop};
ghost use Rattle.defs.specs.Letters.{code};
ghost use Rattle.laws.specs.Puts.{farthest, Put, Placed};
ghost use Rattle.letters.specs.Most.{most_letters};

use layout::bytes::put_byte;

// The letters of a number stand at the end of the array, from `start` on.
// As it is: (a) no heap: a code owns its letters, so its array has room for the most letters, and `start` says where they begin.
#[derive(Clone, Copy, Debug, PartialEq, Eq)]
pub struct Code {
    pub letters: [u8; Code::MOST],
    pub start: usize,
}

impl Code {
    // No number of 32 bits has more letters.
    pub const MOST: usize = 13;
}

// Puts the letters of v in front of `end`, the last first, and answers where they start.
fn put_before(v: u32, end: usize, out: &mut [u8]) -> usize
    requires { (length (code v) ≤ end) × (end ≤ length out.old) }
    ensures { Placed (code v) result end out.old out.new }
{
    let mut at = end - 1;
    out[at] = b'A' + (v % 20) as u8;
    let mut q = v / 20;
    while q > 0 {
        q -= 1;
        at -= 1;
        out[at] = b'U' + (q % 5) as u8;
        q /= 5;
    }
    at
}

// How many letters v has: with no leading letter the numbers below 20, with one those below 120, with two those below 620, ..
pub fn code_length(v: u32) -> usize
    ensures { result ≡ length (code v) }
{
    let number = v as u64;
    let mut leading: usize = 0;
    let mut limit: u64 = 20;
    while limit <= number {
        limit = 5 * limit + 20;
        leading += 1;
    }
    leading + 1
}

pub fn code_of(v: u32) -> Code
    ensures { (drop result.start result.letters ≡ code v) × (result.start < most_letters) }
{
    let mut letters = [0u8; Code::MOST];
    let start = put_before(v, Code::MOST, &mut letters);
    Code { letters, start }
}

// One letter is put as any byte is.
pub fn put_letter(letter: u8, at: usize, out: &mut [u8]) -> usize
    requires { at < farthest }
    ensures { Put (letter ∷ []) at result out.old out.new }
{
    put_byte(letter, at, out)
}

// Writes the letters of v from `at` on where all fit, and changes nothing where they do not. The end is the same either way.
// Most numbers have one letter, so that case goes first.
pub fn put_code(v: u32, at: usize, out: &mut [u8]) -> usize
    requires { at < farthest }
    ensures { Put (code v) at result out.old out.new }
{
    if v < 20 {
        return put_letter(b'A' + v as u8, at, out);
    }
    let end = at + code_length(v);
    if out.len() < end {
        return end;
    }
    put_before(v, end, out);
    end
}
