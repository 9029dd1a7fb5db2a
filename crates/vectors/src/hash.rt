// The hash by which an answer is stored: h = 1, then h = (31 × h + x + 1) mod 4,294,967,291 for each element x.
ghost use Rattle.std.specs.Prelude.{◌≡◌, ◌<◌, ℕ, length, map};
ghost use Rattle.vectors.specs.Hash.{hashed, hash_to};

// An element of an output: a word, a distance, or a byte of letters or of a text.
pub trait Element: Copy {
    // The number that it is.
    ghost number: { Self → ℕ };

    fn wide(self) -> u32
        ensures { result ≡ number self };
}

impl Element for u32 {
    ghost number = { λ x. x };

    fn wide(self) -> u32 {
        self
    }
}

impl Element for u16 {
    ghost number = { λ x. x };

    fn wide(self) -> u32 {
        self as u32
    }
}

impl Element for u8 {
    ghost number = { λ x. x };

    fn wide(self) -> u32 {
        self as u32
    }
}

fn hashed(h: u64, x: u32) -> u64
    requires { h < 4294967291 }
    ensures { (result ≡ hashed h x) × (result < 4294967291) }
{
    (31 * h + x as u64 + 1) % 4294967291
}

pub fn hash<T: Element>(elements: &[T]) -> u64
    ensures { result ≡ hash_to (map T.number elements.now) (length elements.now) }
{
    let mut h: u64 = 1;
    for x in elements {
        h = hashed(h, x.wide());
    }
    h
}
