// Test 2: the statement records.
ghost use Rattle.std.specs.Prelude.{◌≡◌, not, ◌*◌, length};
ghost use Rattle.laws.specs.Tools.{all_of};
ghost use Rattle.defs.specs.Table.{stmt_size};
ghost use Rattle.defs.specs.Check.{statement_rules, statements_rules};
ghost use Rattle.table.specs.Records.{StatementIn};
ghost use Rattle.table_check.specs.Right.{TakenBefore};

use table::limits::MAX_LABEL_LENGTH;
use table::statements::{hyp_count, hyp_start, kind_of, label_length, label_start};
use table::{Kind, StatementNo};

// What the statements before one have taken of the label bytes and of the hypothesis references: the running sums.
#[derive(Clone, Copy)]
struct Taken {
    labels: usize,
    hyps: usize,
}

// Statement k keeps its line. A record past the end of its place is seen here, so that no running sum grows past it.
fn statement_right(
    statements: &[u32],
    k: StatementNo,
    taken: Taken,
    references: usize,
    bytes: usize,
) -> bool
    requires statement_in { StatementIn statements.now k.0 }
    requires taken_before { TakenBefore statements.now references bytes k.0 taken.labels taken.hyps }
    ensures { result ≡ all_of (statement_rules statements.now references bytes k.0) }
{
    let Some(kind) = kind_of(statements, k) else {
        return false;
    };
    if label_start(statements, k) != taken.labels {
        return false;
    }
    let length = label_length(statements, k);
    if length < 1 {
        return false;
    }
    if MAX_LABEL_LENGTH < length {
        return false;
    }
    if bytes - taken.labels < length {
        return false;
    }
    if hyp_start(statements, k) != taken.hyps {
        return false;
    }
    let count = hyp_count(statements, k);
    if kind != Kind::Assertion {
        return count == 0;
    }
    count <= references - taken.hyps
}

// A statement record breaks its line, or labels or hypotheses are not filled exactly.
pub fn statements_wrong(statements: &[u32], count: u32, references: usize, bytes: usize) -> bool
    requires { length statements.now ≡ stmt_size * count }
    ensures { result ≡ not (all_of (statements_rules statements.now count references bytes)) }
{
    let mut taken = Taken { labels: 0, hyps: 0 };
    for k in 0..count {
        if !statement_right(statements, StatementNo(k), taken, references, bytes) {
            return true;
        }
        taken = Taken {
            labels: taken.labels + label_length(statements, StatementNo(k)),
            hyps: taken.hyps + hyp_count(statements, StatementNo(k)),
        };
    }
    if taken.labels != bytes {
        return true;
    }
    taken.hyps != references
}
