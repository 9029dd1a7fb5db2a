// The four sections of the words of a table whose header is right: the header's offsets say where each starts.
ghost use Rattle.std.specs.Prelude.{◌≡◌};
ghost use Rattle.defs.specs.Table.{statement_words, hyp_words, entry_words, child_words};
ghost use Rattle.defs.specs.Checked.{HeaderOk};

pub fn statement_section(words: &[u32]) -> &[u32]
    requires { HeaderOk words.now }
    ensures { result.now ≡ statement_words words.now }
{
    let from = words[4] as usize;
    let to = words[5] as usize;
    &words[from..to]
}

pub fn hyp_section(words: &[u32]) -> &[u32]
    requires { HeaderOk words.now }
    ensures { result.now ≡ hyp_words words.now }
{
    let from = words[5] as usize;
    let to = words[6] as usize;
    &words[from..to]
}

pub fn entry_section(words: &[u32]) -> &[u32]
    requires { HeaderOk words.now }
    ensures { result.now ≡ entry_words words.now }
{
    let from = words[6] as usize;
    let to = words[7] as usize;
    &words[from..to]
}

pub fn child_section(words: &[u32]) -> &[u32]
    requires { HeaderOk words.now }
    ensures { result.now ≡ child_words words.now }
{
    let from = words[7] as usize;
    &words[from..]
}
