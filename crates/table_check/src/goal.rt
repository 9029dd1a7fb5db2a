// Test 7: the theorem and the QED entry.
ghost use Rattle.std.specs.Prelude.{◌≡◌};
ghost use Rattle.defs.specs.Table.{statement_words};
ghost use Rattle.defs.specs.Check.{bad7};
ghost use Rattle.defs.specs.Checked.{HeaderOk};

use table::Kind;
use table::header::read_header;
use table::statements::kind_of;

// Theorem not a statement of kind 0, or QED not below n.
pub fn goal_wrong(words: &[u32], statements: &[u32]) -> bool
    requires header_ok { HeaderOk words.now }
    requires statements_value { statements.now ≡ statement_words words.now }
    ensures { result ≡ bad7 words.now }
{
    let header = read_header(words);
    let theorem = header.theorem;
    if header.statements <= theorem.0 {
        return true;
    }
    if kind_of(statements, theorem) != Some(Kind::Assertion) {
        return true;
    }
    header.entries <= header.qed.0
}
