// The bytes that a label may have.
ghost use Rattle.std.specs.Prelude.{◌≡◌};
ghost use Rattle.std.specs.List.{list_all};
ghost use Rattle.defs.specs.Check.{label_byte};

// Letter, digit, `.`, `-`, `_`.
#[tactic(auto, unfolding(defs::specs::Check::label_byte))]
fn label_byte(byte: u8) -> bool
    ensures { result ≡ label_byte byte }
{
    matches!(byte, b'A'..=b'Z' | b'a'..=b'z' | b'0'..=b'9' | b'.' | b'-' | b'_')
}

// Every byte is a label byte.
pub fn bytes_right(labels: &[u8]) -> bool
    ensures { result ≡ list_all label_byte labels.now }
{
    labels.iter().all(|&byte| label_byte(byte))
}
