// The records of a statement section, and the references of a hypothesis section.
ghost use Rattle.std.specs.Prelude.{◌≡◌, ◌+◌, ◌≤◌, ◌<◌, length};
ghost use Rattle.defs.specs.Table.{word, kind_in, label_start_in, label_length_in, hyp_start_in, hyp_count_in, label_in, hyps_in};
ghost use Rattle.table.specs.Kinds.{kind_said};
ghost use Rattle.table.specs.Records.{StatementIn};

use crate::kinds::Kind;
use crate::limits::STATEMENT_WORDS;
use crate::numbers::StatementNo;

// The word of statement k's kind, also where it is the number of no kind.
pub fn kind(statements: &[u32], k: StatementNo) -> u32
    requires { StatementIn statements.now k.0 }
    ensures { result ≡ kind_in statements.now k.0 }
{
    let at = k.0 as usize;
    statements[STATEMENT_WORDS * at]
}

// None where the word is the number of no kind.
pub fn kind_of(statements: &[u32], k: StatementNo) -> Option<Kind>
    requires { StatementIn statements.now k.0 }
    ensures { result ≡ kind_said (kind_in statements.now k.0) }
{
    Kind::from_number(kind(statements, k))
}

pub fn label_start(statements: &[u32], k: StatementNo) -> usize
    requires { StatementIn statements.now k.0 }
    ensures { result ≡ label_start_in statements.now k.0 }
{
    let at = k.0 as usize;
    statements[STATEMENT_WORDS * at + 1] as usize
}

pub fn label_length(statements: &[u32], k: StatementNo) -> usize
    requires { StatementIn statements.now k.0 }
    ensures { result ≡ label_length_in statements.now k.0 }
{
    let at = k.0 as usize;
    statements[STATEMENT_WORDS * at + 2] as usize
}

pub fn hyp_start(statements: &[u32], k: StatementNo) -> usize
    requires { StatementIn statements.now k.0 }
    ensures { result ≡ hyp_start_in statements.now k.0 }
{
    let at = k.0 as usize;
    statements[STATEMENT_WORDS * at + 3] as usize
}

pub fn hyp_count(statements: &[u32], k: StatementNo) -> usize
    requires { StatementIn statements.now k.0 }
    ensures { result ≡ hyp_count_in statements.now k.0 }
{
    let at = k.0 as usize;
    statements[STATEMENT_WORDS * at + 4] as usize
}

// The label of statement k.
pub fn label_of<'a>(statements: &[u32], labels: &'a [u8], k: StatementNo) -> &'a [u8]
    requires statement_in { StatementIn statements.now k.0 }
    requires k_in_bounds { label_start_in statements.now k.0 + label_length_in statements.now k.0 ≤ length labels.now }
    ensures { result.now ≡ label_in statements.now labels.now k.0 }
{
    let start = label_start(statements, k);
    let end = start + label_length(statements, k);
    &labels[start..end]
}

// The hypothesis list of statement k.
pub fn hyps_of<'a>(statements: &[u32], hyps: &'a [u32], k: StatementNo) -> &'a [u32]
    requires statement_in { StatementIn statements.now k.0 }
    requires k_in_bounds { hyp_start_in statements.now k.0 + hyp_count_in statements.now k.0 ≤ length hyps.now }
    ensures { result.now ≡ hyps_in statements.now hyps.now k.0 }
{
    let start = hyp_start(statements, k);
    let end = start + hyp_count(statements, k);
    &hyps[start..end]
}

// Reference i of a hypothesis section.
pub fn hypothesis(hyps: &[u32], i: usize) -> StatementNo
    requires { i < length hyps.now }
    ensures { result.0 ≡ word hyps.now i }
{
    StatementNo(hyps[i])
}
