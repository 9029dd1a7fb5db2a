// 0 compressed, 1 normal, 2 packed, 3 explicit, 4 packed explicit.
ghost use Rattle.std.specs.Prelude.{◌≡◌};
ghost use Rattle.text.specs.Styles.{compressed_is, packed_is, explicit_is, StyleIs};

use answers::Refusal;

#[derive(Clone, Copy, Debug, PartialEq, Eq)]
pub enum Style {
    Compressed,
    Normal,
    Packed,
    Explicit,
    PackedExplicit,
}

// A style read from its number; refusal 9 where no style has it.
impl TryFrom<u32> for Style {
    type Error = Refusal;

    ghost try_from_gives = { StyleIs };

    fn try_from(number: u32) -> Result<Self, Refusal> {
        match number {
            0 => Ok(Style::Compressed),
            1 => Ok(Style::Normal),
            2 => Ok(Style::Packed),
            3 => Ok(Style::Explicit),
            4 => Ok(Style::PackedExplicit),
            _ => Err(Refusal::Style),
        }
    }
}

impl Style {
    pub fn compressed(self) -> bool
        ensures { result ≡ compressed_is self }
    {
        matches!(self, Style::Compressed)
    }

    pub fn packed(self) -> bool
        ensures { result ≡ packed_is self }
    {
        matches!(
            self,
            Style::Compressed | Style::Packed | Style::PackedExplicit
        )
    }

    pub fn explicit(self) -> bool
        ensures { result ≡ explicit_is self }
    {
        matches!(self, Style::Explicit | Style::PackedExplicit)
    }
}
