// What a byte of the letters says (document 01, "Byte ranges `A` to `T`, `U` to `Y`, `Z`: one decision over ranges").
ghost use Rattle.std.specs.Prelude.{◌≡◌};
ghost use Rattle.letters.specs.Ranges.{letter_of};

#[derive(Clone, Copy, Debug, PartialEq, Eq)]
pub enum Letter {
    // `A` to `T` finish a code, with a digit from 0 to 19.
    Finishing(u32),
    // `U` to `Y` lead, with a digit from 1 to 5: none is zero.
    Leading(u32),
    // `Z` marks the step of the code just finished.
    Mark,
    Other,
}

pub fn read_letter(b: u8) -> Letter
    ensures { result ≡ letter_of b }
{
    match b {
        b'A'..=b'T' => Letter::Finishing((b - b'A') as u32),
        b'U'..=b'Y' => Letter::Leading(1 + (b - b'U') as u32),
        b'Z' => Letter::Mark,
        _ => Letter::Other,
    }
}
