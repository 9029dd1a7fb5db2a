// The number that the bytes of a label say. A label can be no number at all, so what it says is compared with the label again.
ghost use Rattle.std.specs.Prelude.{◌≡◌, ◌+◌, ◌*◌, ◌-◌};
ghost use Rattle.laws.specs.Tools.{same};
ghost use Rattle.defs.specs.Names.{digits};
ghost use Rattle.defs.specs.NameLaws.{value};
ghost use Rattle.names.specs.Decimals.{capped};

use crate::decimal::decimal_of;

// Numbers from here on are not told apart: more than there are marks and labels.
const CAP: u64 = 100000;

// A byte below `0` says 0, as in the definition; one past `9` says more than 9.
fn digit_of(byte: u8) -> u32
    ensures { result ≡ byte - 48 }
{
    byte.saturating_sub(b'0') as u32
}

// The number after one more digit.
fn next_digit(number: u32, digit: u32) -> u32
    ensures { result ≡ capped (10 * number + digit) }
{
    let next = 10 * number as u64 + digit as u64;
    next.min(CAP) as u32
}

pub fn number_of(bytes: &[u8]) -> u32
    ensures { result ≡ capped (value 0 bytes.now) }
{
    let mut number: u32 = 0;
    for byte in bytes {
        number = next_digit(number, digit_of(*byte));
    }
    number
}

// A label with a leading zero, or with bytes that are no digits, says a number and is not its decimal.
pub fn is_decimal(bytes: &[u8], v: u32) -> bool
    ensures { result ≡ same bytes.now (digits v) }
{
    let decimal = decimal_of(v);
    bytes == &decimal.digits[decimal.start..]
}
