// The word that the packed walk keeps of an entry: how many parents it has, and once it is marked, its mark.
ghost use Rattle.std.specs.Prelude.{◌≡◌, ◌-◌};
ghost use Rattle.walk.specs.Marks.{marked};

// One more than a count of parents can be.
pub const COUNTS: usize = 65536;

// Mark m is kept as MARKED + m. That is no count, and it is not below COUNTS times any number of children.
pub const MARKED: u32 = 4294901760;

// The mark that a word holds, 0 for none.
pub fn mark_in(word: u32) -> u32
    ensures { result ≡ word - marked }
{
    word.saturating_sub(MARKED)
}
