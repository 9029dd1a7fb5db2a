// Test 4: the hypothesis references.
ghost use Rattle.std.specs.Prelude.{◌≡◌, not, ◌||◌, ◌<◌, ◌*◌, length};
ghost use Rattle.laws.specs.Tools.{all_below, some_below, repeats};
ghost use Rattle.defs.specs.Table.{stmt_size};
ghost use Rattle.defs.specs.Check.{reference_ok, hyps_repeat};
ghost use Rattle.table_check.specs.Right.{HypsRight};

use table::statements::{hypothesis, hyps_of, kind_of};
use table::{Kind, StatementNo};

// Reference i names a statement, of kind 1 or 2.
fn reference_right(statements: &[u32], count: u32, hyps: &[u32], i: usize) -> bool
    requires statements_len { length statements.now ≡ stmt_size * count }
    requires i_in_bounds { i < length hyps.now }
    ensures { result ≡ reference_ok statements.now hyps.now count i }
{
    let named = hypothesis(hyps, i);
    if count <= named.0 {
        return false;
    }
    kind_of(statements, named) != Some(Kind::Assertion)
}

// Every reference of the section is right.
fn references_right(statements: &[u32], count: u32, hyps: &[u32]) -> bool
    requires { length statements.now ≡ stmt_size * count }
    ensures { result ≡ all_below (reference_ok statements.now hyps.now count) (length hyps.now) }
{
    for i in 0..hyps.len() {
        if !reference_right(statements, count, hyps, i) {
            return false;
        }
    }
    true
}

// A word stands twice in a list: each is looked for among those before it. References below s repeat by place s, so that no list, however
// long, takes more than s² comparisons.
fn repeated(list: &[u32]) -> bool
    ensures { result ≡ repeats list.now }
{
    for i in 0..list.len() {
        if list[..i].contains(&list[i]) {
            return true;
        }
    }
    false
}

// A statement has a hypothesis twice in its list.
fn lists_repeat(statements: &[u32], count: u32, hyps: &[u32]) -> bool
    requires { HypsRight statements.now hyps.now count }
    ensures { result ≡ some_below (hyps_repeat statements.now hyps.now) count }
{
    for k in 0..count {
        if repeated(hyps_of(statements, hyps, StatementNo(k))) {
            return true;
        }
    }
    false
}

// A hypothesis reference out of range, of kind 0, or repeated in its list.
pub fn hypotheses_wrong(statements: &[u32], count: u32, hyps: &[u32]) -> bool
    requires { HypsRight statements.now hyps.now count }
    ensures { result ≡ (not (all_below (reference_ok statements.now hyps.now count) (length hyps.now))
        || some_below (hyps_repeat statements.now hyps.now) count) }
{
    if !references_right(statements, count, hyps) {
        return true;
    }
    lists_repeat(statements, count, hyps)
}
