// Test 1: the header.
ghost use Rattle.std.specs.Prelude.{◌≡◌};
ghost use Rattle.defs.specs.Check.{bad1};

use table::limits::{
    ENTRY_WORDS, HEADER_WORDS, MAX_CHILD_REFS, MAX_ENTRIES, MAX_REFERENCES, MAX_STATEMENTS,
    STATEMENT_WORDS,
};

// Fewer than 10 words, a count over its limit, a wrong offset or length.
pub fn header_wrong(words: &[u32]) -> bool
    ensures { result ≡ bad1 words.now }
{
    if words.len() < HEADER_WORDS {
        return true;
    }
    if MAX_STATEMENTS < words[0] {
        return true;
    }
    if MAX_REFERENCES < words[1] {
        return true;
    }
    if MAX_ENTRIES < words[2] {
        return true;
    }
    if MAX_CHILD_REFS < words[3] {
        return true;
    }
    let hyps_from = HEADER_WORDS + STATEMENT_WORDS * words[0] as usize;
    let entries_from = hyps_from + words[1] as usize;
    let children_from = entries_from + ENTRY_WORDS * words[2] as usize;
    let whole = children_from + words[3] as usize;
    if words[4] as usize != HEADER_WORDS {
        return true;
    }
    if words[5] as usize != hyps_from {
        return true;
    }
    if words[6] as usize != entries_from {
        return true;
    }
    if words[7] as usize != children_from {
        return true;
    }
    words.len() != whole
}
