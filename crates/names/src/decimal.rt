// The decimal digits of a number, with no leading zero.
ghost use Rattle.std.specs.Prelude.{◌≡◌, ◌+◌, ◌<◌, ◌≤◌, length, drop};
ghost use Rattle.defs.specs.Names.{digits};
ghost use Rattle.laws.specs.Puts.{farthest, Put, Placed};
ghost use Rattle.names.specs.Decimals.{most_digits};

// The digits of a number stand at the end of the array, from `start` on.
// As it is: (a) no heap: a decimal owns its digits, so its array has room for the most digits, and `start` says where they begin.
#[derive(Clone, Copy, Debug, PartialEq, Eq)]
pub struct Decimal {
    pub digits: [u8; Decimal::MOST],
    pub start: usize,
}

impl Decimal {
    // No number of 32 bits has more digits.
    pub const MOST: usize = 10;
}

// Puts the digits of v in front of `end`, the last first, and answers where they start.
fn put_before(v: u32, end: usize, out: &mut [u8]) -> usize
    requires { (length (digits v) ≤ end) × (end ≤ length out.old) }
    ensures { Placed (digits v) result end out.old out.new }
{
    let mut at = end;
    let mut q = v;
    while q >= 10 {
        at -= 1;
        out[at] = b'0' + (q % 10) as u8;
        q /= 10;
    }
    at -= 1;
    out[at] = b'0' + q as u8;
    at
}

// How many digits v has.
pub fn decimal_length(v: u32) -> usize
    ensures { result ≡ length (digits v) }
{
    let mut count: usize = 1;
    let mut rest = v;
    while rest >= 10 {
        count += 1;
        rest /= 10;
    }
    count
}

pub fn decimal_of(v: u32) -> Decimal
    ensures { (drop result.start result.digits ≡ digits v) × (result.start + length (digits v) ≡ most_digits) }
{
    let mut digits = [0u8; Decimal::MOST];
    let start = put_before(v, Decimal::MOST, &mut digits);
    Decimal { digits, start }
}

// Writes the digits of v from `at` on where they fit, and changes nothing where they do not. The end is the same either way.
pub fn put_decimal(v: u32, at: usize, out: &mut [u8]) -> usize
    requires { at < farthest }
    ensures { Put (digits v) at result out.old out.new }
{
    let end = at + decimal_length(v);
    if out.len() < end {
        return end;
    }
    put_before(v, end, out);
    end
}
