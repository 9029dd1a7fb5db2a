// The working slice of document 01.
ghost use Rattle.std.specs.Prelude.{◌≡◌};
ghost use Rattle.defs.specs.Checked.{HeaderOk};
ghost use Rattle.defs.specs.Refusals.{need32};

// Working u32: 8×(n+c+s+1).
pub fn working_words(words: &[u32]) -> usize
    requires { HeaderOk words.now }
    ensures { result ≡ need32 words.now }
{
    8 * (words[2] as usize + words[3] as usize + words[0] as usize + 1)
}
