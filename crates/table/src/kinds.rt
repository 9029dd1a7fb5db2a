// Kinds: 0 assertion, 1 floating, 2 essential.
ghost use Rattle.std.specs.Prelude.{◌≡◌};
ghost use Rattle.table.specs.Kinds.{kind_said};

#[derive(Clone, Copy, Debug, PartialEq, Eq)]
pub enum Kind {
    Assertion,
    Floating,
    Essential,
}

impl Kind {
    // The kind with this number, if there is one.
    pub fn from_number(number: u32) -> Option<Self>
        ensures { result ≡ kind_said number }
    {
        match number {
            0 => Some(Kind::Assertion),
            1 => Some(Kind::Floating),
            2 => Some(Kind::Essential),
            _ => None,
        }
    }
}
